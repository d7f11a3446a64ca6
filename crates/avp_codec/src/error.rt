//! Why bytes are no list of pairs.

ghost use Rattle.std.specs.Prelude.{◌≡◌};
ghost use Rattle.avp_codec.specs.declared.error.AvpError.TheVariants as errors;

use wire_base::NoMemory as OutOfMemory;

/// The first fault from the front. A place counts bytes from 0, and is where the pair with the fault begins.
#[derive(Clone, Copy, Debug)]
pub enum AvpError {
    /// Some bytes are left, and fewer than the six of a head.
    Short { at: usize },
    /// The length is under six, so that it doesn't count the head.
    LengthUnderSix { at: usize },
    /// The length passes the end of the bytes.
    PastEnd { at: usize },
    /// Memory was wanting.
    NoMemory,
}

impl From<OutOfMemory> for AvpError {
    ghost from_gives = { λ _ e. e ≡ errors.NoMemory };

    fn from(_e: OutOfMemory) -> AvpError {
        AvpError::NoMemory
    }
}
