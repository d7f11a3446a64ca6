//! `l2tp pool`: a LAC or an LNS is run with workers over ports, a clock and a disk, as words ask for it, and tells how it ended.
#![tactic(auto)]

mod running;
mod telling;
mod top;

pub use top::{Pooled, pool_top};
