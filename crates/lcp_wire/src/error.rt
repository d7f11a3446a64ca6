//! Why bytes are no packet, or no list of options.

ghost use Rattle.std.specs.Prelude.{◌≡◌};
ghost use Rattle.lcp_wire.specs.declared.error.LcpError.TheVariants as packet_errors;
ghost use Rattle.lcp_wire.specs.declared.error.OptionError.TheVariants as option_errors;

use wire_base::NoMemory as OutOfMemory;

/// Why bytes are no packet: the first fault that is met.
#[derive(Clone, Copy, Debug)]
pub enum LcpError {
    /// Fewer than the four bytes of a head.
    Short,
    /// The length said is under four, so that it doesn't count the head, or more than the bytes that are there.
    Length { said: usize, have: usize },
    /// Memory was wanting.
    NoMemory,
}

impl From<OutOfMemory> for LcpError {
    ghost from_gives = { λ _ e. e ≡ packet_errors.NoMemory };

    fn from(_e: OutOfMemory) -> LcpError {
        LcpError::NoMemory
    }
}

/// Why bytes are no list of options: the first fault from the front.
#[derive(Clone, Copy, Debug)]
pub enum OptionError {
    /// No option stands at this place, counted in bytes from 0: a single byte is left, or the length is under two, so
    /// that it doesn't count its own two bytes, or it passes the end.
    OptionLength { at: usize },
    /// Memory was wanting.
    NoMemory,
}

impl From<OutOfMemory> for OptionError {
    ghost from_gives = { λ _ e. e ≡ option_errors.NoMemory };

    fn from(_e: OutOfMemory) -> OptionError {
        OptionError::NoMemory
    }
}
