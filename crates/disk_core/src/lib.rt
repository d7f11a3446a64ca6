//! Disks: what a read gives, what a crash may leave, room that is made before, and a count of faults.
#![tactic(auto)]

mod disk;
mod file;
mod laws;
mod memory;
mod steady;
mod stop;

pub use disk::{Crash, Disk, WrittenRange};
pub use laws::{
    a_crash_may_keep_all_or_nothing, a_sync_leaves_one_image, a_torn_write_leaves_any_bytes,
    a_torn_write_stays_in_its_range,
};
pub use memory::{Fails, MemoryDisk};
pub use steady::SteadyDisk;
pub use stop::StopDisk;
