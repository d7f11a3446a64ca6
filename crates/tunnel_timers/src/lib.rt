//! How long a tunnel and its calls may take and be quiet (RFC 2661 sections 5.8, 6.5 and 7), and when a tick next does something for them.
#![tactic(auto)]

mod due;
mod limits;

pub use due::{call_due, channel_due, recovery_due};
pub use limits::{
    PATIENCE, is_at_its_end, is_closed, is_current, is_open, is_over, is_quiet, is_set_up, is_up,
};
