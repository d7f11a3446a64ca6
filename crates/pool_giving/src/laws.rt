//! A pool gives what a node gives.

ghost use Rattle.pool_giving.specs.Laws.{GivesAsLns, GivesAsLac};

/// A law: what a turn gives to the ports is what a node's step gives to them that gives the same, at an LNS, and at a LAC by what it knows
/// of its hosts.
pub fn gives_as_a_node()
    ensures lns { GivesAsLns }
    ensures lac { GivesAsLac }
{}
