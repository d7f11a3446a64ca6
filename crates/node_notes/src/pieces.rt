//! Pieces of lines. Each is appended to the text before it; where memory is wanting, a part of it may be.

ghost use Rattle.std.specs.Prelude.{◌≡◌, ◌++◌, codes, OnOk};
ghost use Rattle.std.specs.Fmt.{decimal};
ghost use Rattle.node_notes.specs.Texts.{address_text, octet_text, mac_text, error_text, cause_text, told_text, subscriber_text};

use crate::note::Told;
use itoa::Buffer;
use wire_base::{Bytes, Cause, NoMemory};

/// Appends a number in decimal.
fn push_number(out: &mut Bytes, number: u64) -> Result<(), NoMemory>
    ensures { OnOk result (out.new ≡ out.old ++ decimal number) }
{
    let mut digits = Buffer::new();
    out.push_slice(digits.format(number).as_bytes())
}

/// Appends a space and a word, or some.
pub(crate) fn push_word(out: &mut Bytes, word: &[u8]) -> Result<(), NoMemory>
    ensures { OnOk result (out.new ≡ out.old ++ codes " " ++ word.now) }
{
    out.push_slice(b" ")?;
    out.push_slice(word)
}

/// Appends a space and a number in decimal.
pub(crate) fn push_count(out: &mut Bytes, number: u32) -> Result<(), NoMemory>
    ensures { OnOk result (out.new ≡ out.old ++ codes " " ++ decimal number) }
{
    out.push_slice(b" ")?;
    push_number(out, u64::from(number))
}

/// Appends a dot and a number in decimal.
fn push_dotted(out: &mut Bytes, number: u32) -> Result<(), NoMemory>
    ensures { OnOk result (out.new ≡ out.old ++ codes "." ++ decimal number) }
{
    out.push_slice(b".")?;
    push_number(out, u64::from(number))
}

/// Appends a space and an IPv4 address, a number.
#[tactic(auto, unfolding(crate::specs::Texts::address_text))]
pub(crate) fn push_address(out: &mut Bytes, address: u32) -> Result<(), NoMemory>
    ensures { OnOk result (out.new ≡ out.old ++ codes " " ++ address_text address) }
{
    push_count(out, address / 16_777_216)?;
    push_dotted(out, address / 65_536 % 256)?;
    push_dotted(out, address / 256 % 256)?;
    push_dotted(out, address % 256)
}

/// Appends a byte as two hex digits, in lower case.
fn push_octet(out: &mut Bytes, byte: u8) -> Result<(), NoMemory>
    ensures { OnOk result (out.new ≡ out.old ++ octet_text byte) }
{
    let mut digits = [0u8; 2];
    let Ok(()) = hex::encode_to_slice([byte], &mut digits) else {
        unreachable!()
    };
    out.push_slice(&digits)
}

/// Appends a colon and a byte as two hex digits.
fn push_next_octet(out: &mut Bytes, byte: u8) -> Result<(), NoMemory>
    ensures { OnOk result (out.new ≡ out.old ++ codes ":" ++ octet_text byte) }
{
    out.push_slice(b":")?;
    push_octet(out, byte)
}

/// Appends an Ethernet address, its bytes with colons between them.
fn push_mac(out: &mut Bytes, bytes: &[u8]) -> Result<(), NoMemory>
    ensures { OnOk result (out.new ≡ out.old ++ mac_text bytes.now) }
{
    let Some((first, behind)) = bytes.split_first() else {
        return Ok(());
    };
    push_octet(out, *first)?;
    for byte in behind {
        push_next_octet(out, *byte)?;
    }
    Ok(())
}

/// Appends the subscriber of a call, where it is known.
pub(crate) fn push_subscriber(out: &mut Bytes, who: &Option<[u8; 6]>) -> Result<(), NoMemory>
    ensures { OnOk result (out.new ≡ out.old ++ subscriber_text who.now) }
{
    match who {
        Some(who) => {
            out.push_slice(b" subscriber ")?;
            push_mac(out, who)
        }
        None => Ok(()),
    }
}

/// Appends an error code, where there is one.
fn push_error(out: &mut Bytes, error: Option<u16>) -> Result<(), NoMemory>
    ensures { OnOk result (out.new ≡ out.old ++ error_text error) }
{
    match error {
        Some(error) => {
            out.push_slice(b" error ")?;
            push_number(out, u64::from(error))
        }
        None => Ok(()),
    }
}

/// Appends a cause, where there is one.
fn push_cause(out: &mut Bytes, cause: Option<Cause>) -> Result<(), NoMemory>
    ensures { OnOk result (out.new ≡ out.old ++ cause_text cause) }
{
    match cause {
        Some(cause) => {
            out.push_slice(b" cause ")?;
            out.push_slice(cause.word())
        }
        None => Ok(()),
    }
}

/// Appends what a peer was told, and why.
#[tactic(auto, unfolding(crate::specs::Texts::told_text))]
pub(crate) fn push_told(out: &mut Bytes, told: &Told) -> Result<(), NoMemory>
    ensures { OnOk result (out.new ≡ out.old ++ told_text told.now) }
{
    out.push_slice(b" result ")?;
    push_number(out, u64::from(told.result))?;
    push_error(out, told.error)?;
    push_cause(out, told.cause)
}
