//! The limits of an end, in tests: the ends of the spaces of ids, and how many calls and letters a tunnel has and how many
//! tunnels an opener. The messages and the answers were worked out by hand from RFC 2661.
#![tactic(auto)]

#[cfg(test)]
mod limits;
