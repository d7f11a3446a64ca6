//! The two ids of a session.

use crate::sequence::Sequence;

/// A session by its two ids, as one end names it to the other (RFC 4951 section 5.4).
#[derive(Clone, Copy, Debug)]
pub struct Pair {
    /// The id that the end assigned which tells the pair; in an answer 0, where it has no such session.
    pub sender: u32,
    /// The id that the other end assigned.
    pub receiver: u32,
}

/// Sessions by their two ids, in order.
pub type Pairs = Sequence<Pair>;
