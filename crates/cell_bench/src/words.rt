//! What is measured, by the words of the command line.

ghost use Rattle.std.specs.Prelude.{◌≡◌, ◌≤◌, ◌^◌, IfSome, Some};
ghost use Rattle.option_values.specs.Values.{number_of};

use option_values::read_number;

/// What is done in each turn of the loop.
#[derive(Clone, Copy)]
pub enum What {
    /// Nothing but to take in a header that was read before.
    Nothing,
    /// Nothing but to take in what was decided before.
    Decided,
    /// The header of a data message is read.
    Header,
    /// The cell of its session is looked up, and it is decided by that and by its header.
    Look,
    /// Both: all that becomes of a datagram.
    Carry,
}

/// How many threads do it, over the same cells.
#[derive(Clone, Copy)]
pub enum ThreadCount {
    One,
    Two,
    Four,
}

/// What is measured.
#[derive(Clone, Copy)]
pub struct Measure {
    pub what: What,
    /// Whether the headers have a length.
    pub long: bool,
    /// How many turns each thread makes.
    pub times: u64,
    pub threads: ThreadCount,
}

/// So many turns a thread may make: the turns of four can be counted.
const MOST: u64 = 1 << 60;

/// What a word names, and whether the headers have a length.
fn read_what(word: &str) -> Option<(What, bool)> {
    match word {
        "none" => Some((What::Nothing, false)),
        "decided" => Some((What::Decided, false)),
        "header" => Some((What::Header, false)),
        "long_header" => Some((What::Header, true)),
        "look" => Some((What::Look, false)),
        "carry" => Some((What::Carry, false)),
        "long_carry" => Some((What::Carry, true)),
        _ => None,
    }
}

/// The number of threads that a word spells, one where there is no word.
fn read_threads(word: Option<&str>) -> Option<ThreadCount> {
    match word {
        None | Some("1") => Some(ThreadCount::One),
        Some("2") => Some(ThreadCount::Two),
        Some("4") => Some(ThreadCount::Four),
        _ => None,
    }
}

/// The measure that words spell.
pub fn read_measure(what: &str, times: &str, threads: Option<&str>) -> Option<Measure>
    ensures times { IfSome result (λ m. number_of 0 (2 ^ 60) times.now ≡ Some m.times) }
    ensures few { IfSome result (λ m. m.times ≤ 2 ^ 60) }
{
    let (what, long) = read_what(what)?;
    let times = read_number(times, 0, MOST)?;
    let threads = read_threads(threads)?;
    Some(Measure {
        what,
        long,
        times,
        threads,
    })
}
