//! The bytes of a frame.

ghost use Rattle.std.specs.Prelude.{◌≡◌, ◌-◌, take, drop};

/// The bytes between two places, as far as there are any.
pub(crate) fn between(bytes: &[u8], start: usize, end: usize) -> &[u8]
    ensures { result.now ≡ take (end - start) (drop start bytes.now) }
{
    let end = end.min(bytes.len());
    let start = start.min(end);
    &bytes[start..end]
}
