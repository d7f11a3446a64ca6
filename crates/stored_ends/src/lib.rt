//! A LAC and an LNS, each with the store of its records: what a step leaves is on the disk before anything of the step is seen.
#![tactic(auto)]

mod lac;
mod lns;
mod stops;

pub use lac::StoredLac;
pub use lac_core::{Given, Lac, LacGiven};
pub use lns::StoredLns;
pub use stops::OpenStop;
