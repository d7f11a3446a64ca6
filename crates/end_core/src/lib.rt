//! One end of L2TP tunnels: each event is a step, which gives the next end, its outputs and its moves.
//!
//! The step of a tunnel is planned, and room is made for the places of the calls that it makes. Then the ledger that the end is
//! lent is asked to commit what the step leaves, and only when it has is the step made, which takes no memory. So where memory is
//! wanting or the ledger stops, the end is as before.
#![tactic(auto)]

mod addressing;
mod apart;
mod declining;
mod end;
mod frames;
mod keeping;
mod planning;
mod recovering;
mod rows;
mod starting;
mod ticks;

pub use apart::EndParts;
pub use end::{End, Given};
pub use rows::{CallRow, CallTable, EndRows, TunnelRow};
pub use tunnel_table::{CallRows, Cores, Moves, Outputs, Rows, TunnelCore};
