//! The words of `make`.

ghost use Rattle.std.specs.Prelude.{◌≡◌, map, string_bytes};
ghost use Rattle.schedule_making.specs.Words.{numbers_of, make_of};

use option_values::read_number;

/// A seed, and how many lines are drawn: 50,000 at most.
fn read_numbers(seed: &str, count: &str) -> Option<(u64, u32)>
    ensures { result ≡ numbers_of seed.now count.now }
{
    let seed = read_number(seed, 0, u64::MAX)?;
    let count = read_number(count, 1, 50_000)?;
    Some((seed, count as u32))
}

/// The seed and the number of drawn lines that the words `make SEED COUNT` ask for; none where the words are others. Numbers are decimal,
/// without sign or leading zero.
pub fn read_make(words: &[String]) -> Option<(u64, u32)>
    ensures { result ≡ make_of (map string_bytes words.now) }
{
    match words {
        [command, seed, count] if command.as_str() == "make" => {
            read_numbers(seed.as_str(), count.as_str())
        }
        _ => None,
    }
}
