//! What becomes of the tunnel that is to be recovered.

use control_message::Suggested;
use wire_base::Cause;

/// What becomes of the tunnel that is to be recovered.
#[derive(Clone, Copy, Debug)]
pub enum Progress {
    /// Nothing yet, or nothing more.
    Waiting,
    /// Its channel is to be reset: the attempting end sends from Ns and expects Nr, the answering end sends from Nr and expects
    /// Ns. The draw number is that of the other end, where it told one.
    Reset {
        suggested: Suggested,
        peer_draw: Option<u32>,
    },
    /// It is to be cleared: what came is refused, and a StopCCN that says so stands in the channel of the recovery tunnel, which is
    /// closed.
    Given {
        cause: Cause,
    },
    /// It is to be cleared, and the other end isn't told.
    Cleared,
}
