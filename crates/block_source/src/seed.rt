//! The generator of a node.

ghost use Rattle.std.specs.Prelude.{◌≡◌, IfOk, length, List, ℕ};
ghost use Rattle.rand_chacha.specs.ChaCha.{of_seed};

use rand_chacha::ChaCha20Rng;
use rand_core::SeedableRng;
use std::fs::File;
use std::io;
use std::io::Read;
use std::rt::Files;

/// The generator at the start of a seed's stream.
pub fn seeded(seed: [u8; 32]) -> ChaCha20Rng
    ensures { result ≡ of_seed seed }
{
    ChaCha20Rng::from_seed(seed)
}

/// The generator of the first 32 bytes of a file. A file that can't be opened, or that is shorter, is an error.
pub fn generator_of_file<R: Files>(system: &R, path: &str) -> io::Result<ChaCha20Rng>
    ensures { IfOk result (λ rng. (seed : List ℕ) × (length seed ≡ 32) × (rng ≡ of_seed seed)) }
{
    let mut file = File::open(system, path)?;
    let mut seed = [0u8; 32];
    file.read_exact(&mut seed)?;
    Ok(seeded(seed))
}
