//! Why bytes are no frame, or no list of tags.

ghost use Rattle.std.specs.Prelude.{◌≡◌};
ghost use Rattle.pppoe_wire.specs.declared.error.PppoeError.TheVariants as frame_errors;
ghost use Rattle.pppoe_wire.specs.declared.error.TagError.TheVariants as tag_errors;

use wire_base::NoMemory as OutOfMemory;

/// Why bytes are no PPPoE frame: the first fault that is met.
#[derive(Clone, Copy, Debug)]
pub enum PppoeError {
    /// Fewer than the twenty bytes of a head.
    Short,
    /// VER and TYPE, seen as one byte, aren't 1 each; or the ethertype is neither 8863 nor 8864, and seen is 0.
    VerType { seen: u8 },
    /// The length said is more than the bytes behind the head.
    Length { said: usize, have: usize },
    /// Memory was wanting.
    NoMemory,
}

impl From<OutOfMemory> for PppoeError {
    ghost from_gives = { λ _ e. e ≡ frame_errors.NoMemory };

    fn from(_e: OutOfMemory) -> PppoeError {
        PppoeError::NoMemory
    }
}

/// Why bytes are no list of tags: the first fault from the front.
#[derive(Clone, Copy, Debug)]
pub enum TagError {
    /// No tag stands at this place, counted in bytes from 0: fewer than the four bytes of a head are left, or the length
    /// passes the end.
    TagPastEnd { at: usize },
    /// Memory was wanting.
    NoMemory,
}

impl From<OutOfMemory> for TagError {
    ghost from_gives = { λ _ e. e ≡ tag_errors.NoMemory };

    fn from(_e: OutOfMemory) -> TagError {
        TagError::NoMemory
    }
}
