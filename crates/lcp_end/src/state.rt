//! What an end keeps of its link.

use crate::table::LcpState;

/// What an end keeps of its link.
#[derive(Clone, Copy)]
pub struct EndState {
    pub state: LcpState,
    /// Whether it asks for an MRU, of 1,492 bytes.
    pub asks_mru: bool,
    /// The magic number that it asks for, until the peer rejects that option.
    pub magic: Option<u32>,
    /// The restart count: how many more requests may be sent before the peer is given up.
    pub restarts: u8,
    /// The moment, in milliseconds, at which the timer was last started.
    pub since: u64,
    /// The identifier of the last packet that it began.
    pub last_id: u8,
    /// The identifier of the last Configure-Request or Terminate-Request.
    pub request: u8,
    /// How many Naks were sent since the last Ack; at most 5.
    pub naks: u8,
}
