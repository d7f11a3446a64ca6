//! What reaches the outside: sources and sinks that count their faults, in memory and over the system's streams, and what
//! a node's ports and its clock are.
#![tactic(auto)]

mod copying;
mod limits;
mod memory;
mod moving;
mod optional;
mod packets;
mod ports;
mod system;

pub use copying::copy_front;
pub use limits::{MOST_BYTES, MOST_LINES};
pub use memory::{Fails, MemorySink, MemorySource};
pub use moving::{ReadError, read_text, write_all};
pub use packets::{
    Arrived, Clock, Datagram, Datagrams, Ether, Frames, Link, LowerFrame, LowerFrames, Lowered,
    Uplink,
};
pub use ports::{Sink, Source};
pub use system::{StdSink, StdSource};
