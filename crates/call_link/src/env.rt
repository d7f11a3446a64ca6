//! What a link is called with.

/// The step in which a link is called.
#[derive(Clone, Copy)]
pub struct LinkEnv {
    /// The moment of the step, in milliseconds. Where it is below a kept one, no time has passed.
    pub moment: u64,
    /// The random block of the step.
    pub block: [u8; 16],
}
