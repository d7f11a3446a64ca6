//! What a kill found.

/// How a cell was left.
#[derive(Clone, Copy, PartialEq, Eq, Debug)]
pub enum Killed {
    /// It was never bound, and isn't.
    Unborn,
    Dead,
}
