//! What the body of a control message says, what its fault is to a call or to a tunnel, and what it is for where it names no tunnel;
//! and why calls end and tunnels close, with the codes that say so.
#![tactic(auto)]

mod declining;
mod openings;
mod reading;
mod reasons;
mod uncovering;
mod zero;

pub use declining::{decline_bytes, next_of_peer};
pub use openings::{
    against, connected_event, connected_reason, connection_by, event_by, is_of_version,
    lacks_secret, no_recovery, no_secret, opening_reason, other_version, reply_by,
};
pub use reading::{CallFault, Said, TunnelFault, read_body};
pub use reasons::{
    Reason, fault_reason, no_id, no_outgoing, no_tunnel, not_asked, out_of_order, out_of_state,
};
pub use uncovering::uncover_datagram;
pub use zero::at_zero;
