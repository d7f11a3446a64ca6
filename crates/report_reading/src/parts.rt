//! Parts of a text, and the numbers that words spell.

ghost use Rattle.std.specs.Prelude.{◌≡◌, ◌≤◌, ◌==◌, position, MatchOption, IfSome, Some, None};
ghost use Rattle.schedule_text.specs.Reading.{cut, digits_of, begins_well, number_of, node_of};
ghost use Rattle.report_reading.specs.Reading.{behind, count_of, amount_of};

fn place_of(text: &[u8], separator: u8) -> Option<usize>
    ensures { result ≡ position (λ b. b == separator) text.now }
{
    text.iter().position(|byte| *byte == separator)
}

/// What stands before the first separator, and what behind it, where there is one.
#[tactic(auto, using(schedule_text::proofs::Cuts::cut_none))]
pub(crate) fn split_once(text: &[u8], separator: u8) -> Option<(&[u8], &[u8])>
    ensures { MatchOption result (cut separator text.now ≡ None) (λ x. cut separator text.now ≡ Some (x.0.now, x.1.now)) }
{
    let at = place_of(text, separator)?;
    Some((&text[..at], &text[at + 1..]))
}

/// What stands behind a front, where the text begins with it.
#[tactic(auto, unfolding(crate::specs::Reading::behind))]
pub(crate) fn behind<'a>(text: &'a [u8], front: &[u8]) -> Option<&'a [u8]>
    ensures { MatchOption result (behind front.now text.now ≡ None) (λ rest. behind front.now text.now ≡ Some rest.now) }
{
    if text.len() < front.len() {
        return None;
    }
    let (head, rest) = text.split_at(front.len());
    if head == front { Some(rest) } else { None }
}

/// The number that digits spell in decimal, where it isn't over a bound.
#[tactic(auto, unfolding(schedule_text::specs::Reading::digits_of))]
fn read_digits(word: &[u8], most: u32) -> Option<u32>
    ensures exact { result ≡ digits_of most word.now }
    ensures within { IfSome result (λ n. n ≤ most) }
{
    let mut number = 0u64;
    for byte in word {
        if !byte.is_ascii_digit() {
            return None;
        }
        number = number * 10 + u64::from(*byte - b'0');
        if number > u64::from(most) {
            return None;
        }
    }
    Some(number as u32)
}

/// Whether a word has a byte, and no leading zero.
fn begins_well(word: &[u8]) -> bool
    ensures { result ≡ begins_well word.now }
{
    match word {
        [] | [b'0', _, ..] => false,
        _ => true,
    }
}

/// The number that a word spells in decimal, without sign or leading zero, where it is between two bounds.
#[tactic(auto, unfolding(schedule_text::specs::Reading::number_of))]
pub(crate) fn read_number(word: &[u8], least: u32, most: u32) -> Option<u32>
    ensures exact { result ≡ number_of least most word.now }
    ensures within { IfSome result (λ n. n ≤ most) }
{
    if begins_well(word) {
        read_digits(word, most).filter(|number| least <= *number)
    } else {
        None
    }
}

/// A line of a schedule, or a packet: 1 to 4294967295.
pub(crate) fn read_count(word: &[u8]) -> Option<u32>
    ensures { result ≡ count_of word.now }
{
    read_number(word, 1, u32::MAX)
}

/// A number that may be 0.
pub(crate) fn read_amount(word: &[u8]) -> Option<u32>
    ensures { result ≡ amount_of word.now }
{
    read_number(word, 0, u32::MAX)
}

/// A node: 1 to 255.
pub(crate) fn read_node(word: &[u8]) -> Option<u8>
    ensures { result ≡ node_of word.now }
{
    let node = read_number(word, 1, 255)?;
    Some(node as u8)
}
