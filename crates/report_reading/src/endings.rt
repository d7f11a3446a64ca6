//! What a report ends with: tables of what each node holds, or why the run wasn't done to its end.

ghost use Rattle.std.specs.Prelude.{◌≡◌};
ghost use Rattle.report_reading.specs.Reading.{is_held, is_state, is_table, unfit_of, too_old_of, half_space_of, stale_of, numbered_of, is_exit, is_ending};

use crate::fields::{Field, fits, is_word};
use crate::parts::{behind, read_amount, read_count, split_once};

/// A tunnel, or a call of it, by its words.
#[tactic(auto, unfolding(crate::specs::Reading::is_held))]
fn is_held(kind: &[u8], words: &[u8]) -> bool
    ensures { result ≡ is_held kind.now words.now }
{
    if kind == b"tunnel".as_slice() {
        let tunnel = [
            Field::Id,
            Field::Node,
            Field::Count,
            Field::Word,
            Field::Count,
            Field::Word,
        ];
        fits(&tunnel, Field::Word, words)
    } else if kind == b"call".as_slice() {
        let call = [Field::Id, Field::Id, Field::Count, Field::Word];
        fits(&call, Field::Count, words)
    } else {
        false
    }
}

/// That a node is down, or what it holds.
#[tactic(auto, unfolding(crate::specs::Reading::is_state))]
fn is_state(node: &[u8], words: &[u8]) -> bool
    ensures { result ≡ is_state node.now words.now }
{
    if !Field::Node.fits(node) {
        return false;
    }
    if words == b"down".as_slice() {
        return true;
    }
    match split_once(words, b' ') {
        Some((kind, others)) => is_held(kind, others),
        None => false,
    }
}

/// A line of the tables at the end, by its first word and those behind it.
#[tactic(auto, unfolding(crate::specs::Reading::is_table))]
fn is_table(kind: &[u8], words: &[u8]) -> bool
    ensures { result ≡ is_table kind.now words.now }
{
    if kind == b"end".as_slice() {
        match split_once(words, b' ') {
            Some((node, others)) => is_state(node, others),
            None => false,
        }
    } else if kind == b"agree".as_slice() {
        let pair = [Field::Node, Field::Id, Field::Node, Field::Id];
        fits(&pair, Field::Count, words)
    } else {
        false
    }
}

/// The number of the line that doesn't fit, by `unfit line L: WORD`.
#[tactic(auto, unfolding(crate::specs::Reading::unfit_of))]
fn read_unfit(text: &[u8]) -> Option<u32>
    ensures { result ≡ unfit_of text.now }
{
    let more = behind(text, b"unfit line ")?;
    let (line, others) = split_once(more, b':')?;
    let why = behind(others, b" ")?;
    let line = read_count(line)?;
    if is_word(why) { Some(line) } else { None }
}

/// The number of the line whose packet is too old, behind a front. Behind two words more stand what the packet tells, and what its tunnel
/// counts.
#[tactic(auto, unfolding(crate::specs::Reading::too_old_of))]
fn read_too_old(text: &[u8], front: &[u8], told: &[u8], counted: &[u8]) -> Option<u32>
    ensures { result ≡ too_old_of front.now told.now counted.now text.now }
{
    let more = behind(text, front)?;
    let (line, others) = split_once(more, b':')?;
    let others = behind(others, told)?;
    let (number, others) = split_once(others, b',')?;
    let count = behind(others, counted)?;
    let _number = read_amount(number)?;
    let _count = read_amount(count)?;
    read_count(line)
}

/// The number of the line whose packet has outlived half of the numbers, by `half space line L: number N, at A`.
fn read_half_space(text: &[u8]) -> Option<u32>
    ensures { result ≡ half_space_of text.now }
{
    read_too_old(text, b"half space line ", b" number ", b" at ")
}

/// The number of the line whose packet was sent before its tunnel's last reset, by `stale line L: packet epoch P, own epoch O`.
fn read_stale(text: &[u8]) -> Option<u32>
    ensures { result ≡ stale_of text.now }
{
    read_too_old(text, b"stale line ", b" packet epoch ", b" own epoch ")
}

/// The number behind a front.
#[tactic(auto, unfolding(crate::specs::Reading::numbered_of))]
fn read_numbered(text: &[u8], front: &[u8]) -> Option<u32>
    ensures { result ≡ numbered_of front.now text.now }
{
    let word = behind(text, front)?;
    read_count(word)
}

/// Why a run wasn't done to its end.
#[tactic(auto, unfolding(crate::specs::Reading::is_exit))]
fn is_exit(text: &[u8]) -> bool
    ensures { result ≡ is_exit text.now }
{
    read_unfit(text).is_some()
        || read_half_space(text).is_some()
        || read_stale(text).is_some()
        || read_numbered(text, b"bad line ").is_some()
        || read_numbered(text, b"too long: ").is_some()
        || read_numbered(text, b"store full: ").is_some()
        || text == b"read fault".as_slice()
}

/// Whether a report may end with a line.
#[tactic(auto, unfolding(crate::specs::Reading::is_ending))]
pub(crate) fn is_ending(text: &[u8]) -> bool
    ensures { result ≡ is_ending text.now }
{
    let is_in_table = match split_once(text, b' ') {
        Some((kind, words)) => is_table(kind, words),
        None => false,
    };
    is_in_table || is_exit(text)
}
