//! Lines that tell nothing of what was sent: of each the words alone are looked at, as what they are.

ghost use Rattle.std.specs.Prelude.{◌≡◌};
ghost use Rattle.std.specs.List.{list_all};
ghost use Rattle.report_reading.specs.Fields.{is_letter, is_word, is_hex_digit, is_hex, fits_field, fits};

use crate::parts::{read_number, split_once};

/// What a word of a line is.
#[derive(Clone, Copy)]
pub enum Field {
    /// A node: 1 to 255.
    Node,
    /// A tunnel or a call: 1 to 65535.
    Id,
    /// A number from 0 to 4294967295.
    Count,
    /// Lower-case letters and dashes.
    Word,
    /// Pairs of lower-case hex digits.
    Hex,
}

fn are_letters(word: &[u8]) -> bool
    ensures { result ≡ list_all is_letter word.now }
{
    word.iter()
        .all(|byte| b'a' <= *byte && *byte <= b'z' || *byte == b'-')
}

pub(crate) fn is_word(word: &[u8]) -> bool
    ensures { result ≡ is_word word.now }
{
    !word.is_empty() && are_letters(word)
}

fn are_hex_digits(word: &[u8]) -> bool
    ensures { result ≡ list_all is_hex_digit word.now }
{
    word.iter().all(|byte| b'0' <= *byte && *byte <= b'9' || b'a' <= *byte && *byte <= b'f')
}

fn is_hex(word: &[u8]) -> bool
    ensures { result ≡ is_hex word.now }
{
    !word.is_empty() && word.len() % 2 == 0 && are_hex_digits(word)
}

impl Field {
    /// Whether a word is what the field wants.
    pub(crate) fn fits(self, word: &[u8]) -> bool
        ensures { result ≡ fits_field self word.now }
    {
        match self {
            Field::Node => read_number(word, 1, 255).is_some(),
            Field::Id => read_number(word, 1, 65535).is_some(),
            Field::Count => read_number(word, 0, u32::MAX).is_some(),
            Field::Word => is_word(word),
            Field::Hex => is_hex(word),
        }
    }
}

/// Whether words, parted by one space, are what these fields want, and then the last one.
pub(crate) fn fits(fields: &[Field], last: Field, words: &[u8]) -> bool
    ensures { result ≡ fits fields.now last words.now }
{
    let mut rest = words;
    for field in fields {
        let Some((word, others)) = split_once(rest, b' ') else {
            return false;
        };
        if !field.fits(word) {
            return false;
        }
        rest = others;
    }
    last.fits(rest)
}
