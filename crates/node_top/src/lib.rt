//! `l2tp node`: a LAC or an LNS is run over ports, a clock and a disk, as words ask for it, and tells how it ended.
#![tactic(auto)]

mod exit;
mod running;
mod telling;
mod top;

pub use exit::NodeExit;
pub use running::{config_of, of_giving, of_opening, of_serving};
pub use telling::{exit_text, push_line};
pub use top::{node_top, tell};
