//! By what the tunnels of an end are found, as it is listed of each of them: so they are found without a look at the tunnels, which may
//! stand behind locks.
#![tactic(auto)]

mod directory;
mod indexes;
mod labels;
mod listed;

pub use directory::{Directory, Entry};
pub use listed::{Listed, Wanted};
