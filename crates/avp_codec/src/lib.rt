//! Attribute value pairs as bytes (RFC 2661 section 4.1): the pairs of a control message follow one another to its end.
#![tactic(auto)]

mod avp;
mod error;
mod lent;
mod reading;
mod writing;

pub use avp::{Avp, Avps};
pub use error::AvpError;
pub use lent::{AvpRef, LentAvps, Place, Places};
pub use reading::{read_avps, read_places, reads_what_was_written};
pub use writing::{spell_avps, write_avp};
