//! Tunnels, calls, queries and recovery as moves of a world, with no bytes, timers or windows.
#![tactic(auto)]
