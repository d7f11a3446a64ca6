//! The block of an event.

ghost use Rattle.std.specs.Prelude.{◌≡◌};
ghost use Rattle.rand_core.specs.Stream.{fill_bytes};

use rand_core::Rng;

/// The next 16 bytes of a generator.
pub fn next_block<R: Rng>(rng: &mut R) -> [u8; 16]
    ensures { (result, R.stream rng.new) ≡ fill_bytes 16 (R.stream rng.old) }
{
    let mut block = [0u8; 16];
    rng.fill_bytes(&mut block);
    block
}
