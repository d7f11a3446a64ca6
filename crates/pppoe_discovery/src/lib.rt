//! The access concentrator's side of PPPoE discovery (RFC 2516 section 5): what a frame leads to, and the frames that are
//! sent: PADO, PADS and PADT.
#![tactic(auto)]

mod asking;
mod code;
mod cookies;
mod laws;
mod outcome;
mod replies;
mod tag_type;
mod taking;

pub use cookies::cookie;
pub use laws::{cookies_come_back, replies_are_read_again, stages_stay_apart};
pub use outcome::Discovered;
pub use replies::{padt_frame, write_pads};
pub use taking::on_frame;
