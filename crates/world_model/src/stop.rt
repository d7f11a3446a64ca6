//! A stop that is armed.

/// A commit that is going to stop a node.
#[derive(Clone, Copy)]
pub struct StopAt {
    /// Which one, counted from the next commit on, from 1.
    pub commit: u8,
    /// Whether what it commits is in the checkpoint then.
    pub kept: bool,
}
