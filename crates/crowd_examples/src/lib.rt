//! Crowds, in tests: as many peers as an LNS may have tunnels, and one more, ask it for one; and stations look for a LAC by the
//! thousand. The frames and messages were worked out by hand from RFC 2516 and RFC 2661.
#![tactic(auto)]

#[cfg(test)]
mod crowd_tests;
