//! Why a hidden value isn't revealed.

use wire_base::NoMemory as OutOfMemory;

/// Why a hidden value isn't revealed. It tells lengths alone, and nothing of the secret.
#[derive(Clone, Copy, Debug)]
pub enum UnhideError {
    /// The original length says so many bytes, and fewer stand behind it. Both are 0 where there are fewer than the two
    /// bytes of the length.
    BadLength { said: usize, have: usize },
    NoMemory,
}

impl From<OutOfMemory> for UnhideError {
    ghost use Rattle.std.specs.Prelude.{◌≡◌};
    ghost use Rattle.tunnel_secret.specs.declared.error.UnhideError.TheVariants.{NoMemory};

    ghost from_gives = { λ _ e. e ≡ NoMemory };

    fn from(_e: OutOfMemory) -> UnhideError {
        UnhideError::NoMemory
    }
}
