//! The values of options.

ghost use Rattle.std.specs.Prelude.{◌≡◌, ◌≤◌, IfSome, option_map};
ghost use Rattle.std.specs.Char.{is_ascii_digit};
ghost use Rattle.std.specs.List.{list_all};
ghost use Rattle.option_values.specs.Values.{begins_well, is_plain, numeral_of, number_of, number_or, address_of, role_of, peer_of, secret_of, workers_of};

use std::net::Ipv4Addr;

/// Whether there is a byte, and no leading zero.
fn begins_well(bytes: &[u8]) -> bool
    ensures { result ≡ begins_well bytes.now }
{
    match bytes {
        [] | [b'0', _, ..] => false,
        _ => true,
    }
}

/// Whether there are digits alone.
fn are_digits(bytes: &[u8]) -> bool
    ensures { result ≡ list_all is_ascii_digit bytes.now }
{
    bytes.iter().all(|byte| byte.is_ascii_digit())
}

/// Whether a word has digits alone, and no leading zero.
fn is_plain(word: &str) -> bool
    ensures { result ≡ is_plain word.now }
{
    begins_well(word.as_bytes()) && are_digits(word.as_bytes())
}

/// The number that a word spells in decimal, without sign or leading zero, where it is below 2^64.
#[tactic(auto, using(crate::proofs::Numbers::not_plain, crate::proofs::Numbers::plain_parsed))]
fn read_numeral(word: &str) -> Option<u64>
    ensures { result ≡ numeral_of word.now }
{
    if !is_plain(word) {
        return None;
    }
    word.parse::<u64>().ok()
}

/// The number that a word spells, where it is between two bounds.
#[tactic(auto, unfolding(crate::specs::Values::number_of))]
pub fn read_number(word: &str, least: u64, most: u64) -> Option<u64>
    ensures exact { result ≡ number_of least most word.now }
    ensures within { IfSome result (λ n. n ≤ most) }
{
    let number = read_numeral(word)?;
    if number < least || most < number {
        return None;
    }
    Some(number)
}

/// The number that a word spells, where it is between two bounds; without a word another one.
pub fn read_number_or(word: Option<&str>, otherwise: u64, least: u64, most: u64) -> Option<u64>
    requires { otherwise ≤ most }
    ensures exact { result ≡ number_or otherwise least most (option_map (λ w. w.now) word.entry) }
    ensures within { IfSome result (λ n. n ≤ most) }
{
    match word {
        None => Some(otherwise),
        Some(word) => read_number(word, least, most),
    }
}

/// The IPv4 address that a word spells: four decimal numbers below 256 without leading zeros, and dots between them.
#[tactic(auto, using(crate::proofs::Addresses::parsed_address, crate::proofs::Addresses::no_address))]
pub fn read_address(word: &str) -> Option<u32>
    ensures { result ≡ address_of word.now }
{
    match word.parse::<Ipv4Addr>() {
        Ok(address) => Some(address.to_bits()),
        Err(_) => None,
    }
}

/// Whether a role is that of a LAC.
pub fn read_role(word: &str) -> Option<bool>
    ensures { result ≡ role_of word.now }
{
    if word == "lac" {
        Some(true)
    } else if word == "lns" {
        Some(false)
    } else {
        None
    }
}

/// The address of the peer, which a LAC must have.
pub fn read_peer(lac: bool, word: Option<&str>) -> Option<Option<u32>>
    ensures { result ≡ peer_of lac (option_map (λ w. w.now) word.entry) }
{
    match word {
        None if lac => None,
        None => Some(None),
        Some(word) => {
            let address = read_address(word)?;
            Some(Some(address))
        }
    }
}

/// The number of workers, which only a pool is asked for.
pub fn read_workers(pool: bool, word: Option<&str>) -> Option<u64>
    ensures exact { result ≡ workers_of pool (option_map (λ w. w.now) word.entry) }
    ensures within { IfSome result (λ n. n ≤ 64) }
{
    if !pool && word.is_some() {
        return None;
    }
    read_number_or(word, 4, 1, 64)
}

/// A secret of 1 to 64 bytes.
pub fn read_secret<'a>(word: Option<&'a str>) -> Option<Option<&'a str>>
    ensures { option_map (option_map (λ w. w.now)) result ≡ secret_of (option_map (λ w. w.now) word.entry) }
{
    match word {
        None => Some(None),
        Some(word) if word.is_empty() || 64 < word.len() => None,
        Some(word) => Some(Some(word)),
    }
}
