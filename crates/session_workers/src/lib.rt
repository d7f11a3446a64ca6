//! Queues between threads over an end whose tunnels stand behind locks: datagrams that wait for a worker, each of which is taken once, and
//! what workers made of them. A data message is judged by the cell of its session, as its caller had seen it, or later; it waits for
//! no lock. A control message brings about a turn, and comes back with what that gave.
//!
//! Each thread holds a pass of its own, which tells what it put and took. One pass alone puts.
#![tactic(auto)]

mod finished;
mod finishing;
mod item;
mod items;
mod passes;
mod shared;
mod views;
mod work;

pub use finished::{Done, Finished, Worked};
pub use item::{Item, Numbered};
pub use passes::{join_pass, open_shared, split_pass};
pub use shared::{Full, Pass, Shared};
pub use work::{Gate, collect, hand_over, put, work_one};
