//! What a link gives at a call.

use crate::frames::Frames;
use crate::link::Link;
use wire_base::Cause;

/// What a link gives at a call to the call around it.
#[derive(Drop)]
pub struct LinkTurn {
    /// The link after it.
    pub link: Link,
    /// The PPP frames that are to be sent to the peer, in order, each from its protocol field on. They come before the end of the
    /// call, where it ends.
    pub frames: Frames,
    /// Frames of the network pass from now on. It is told once in the life of a link.
    pub opens: bool,
    /// The call is to end, for this cause. A link gives nothing more after it.
    pub ends: Option<Cause>,
    /// LCP came up.
    pub up: bool,
    /// LCP went down.
    pub down: bool,
}
