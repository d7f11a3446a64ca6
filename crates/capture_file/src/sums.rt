//! The checksum of IPv4 and UDP (RFC 1071).

ghost use Rattle.std.specs.Prelude.{◌≡◌, ◌<◌, length};
ghost use Rattle.capture_file.specs.Sums.{add_words, sum_from, checksum};

use byteorder::{BigEndian, ByteOrder};

/// The sum of two words, with what is carried out of it added at its low end.
fn add_words(a: u16, b: u16) -> u16
    ensures { result ≡ add_words a b }
{
    let sum = u32::from(a) + u32::from(b);
    if sum > 65535 {
        (sum - 65535) as u16
    } else {
        sum as u16
    }
}

/// A sum, and the word of the one byte that may be left, which is the word's high one.
fn add_last(sum: u16, left: &[u8]) -> u16
    requires { length left.now < 2 }
    ensures { result ≡ sum_from sum left.now }
{
    match left {
        [last] => add_words(sum, u16::from(*last) * 256),
        _ => sum,
    }
}

/// The sum of the words of bytes.
fn sum_of(bytes: &[u8]) -> u16
    ensures { result ≡ sum_from 0 bytes.now }
{
    let mut sum = 0;
    let mut left = bytes;
    while left.len() > 1 {
        let (word, rest) = left.split_at(2);
        sum = add_words(sum, BigEndian::read_u16(word));
        left = rest;
    }
    add_last(sum, left)
}

/// The complement of the sum of the words of bytes. A byte that is left over is the high one of a word.
#[tactic(auto, unfolding(crate::specs::Sums::checksum))]
pub fn checksum(bytes: &[u8]) -> u16
    ensures { result ≡ checksum bytes.now }
{
    65535 - sum_of(bytes)
}
