//! What a node writes at its end.

ghost use Rattle.std.specs.Prelude.{◌≡◌, ◌≢◌, [], ◌++◌, IfOk, OnOk, OnErr, codes};
ghost use Rattle.node_top.specs.Texts.{number_line, counts_text, exit_text};

use crate::exit::NodeExit;
use itoa::Buffer;
use node_run::Counts;
use std::alloc::Global;
use wire_base::{Bytes, NoMemory};

/// Appends a word and its number, in decimal, in a line.
pub fn push_line(out: &mut Bytes, word: &[u8], number: u64) -> Result<(), NoMemory>
    ensures { OnOk result (out.new ≡ out.old ++ number_line word.now number) }
{
    let mut digits = Buffer::new();
    out.push_slice(word)?;
    out.push_slice(digits.format(number).as_bytes())?;
    out.push_slice(b"\n")
}

/// The three lines of a node that made all its turns.
pub(crate) fn counts_text(alloc: Global, counts: Counts) -> Result<Bytes, NoMemory>
    ensures { IfOk result (λ text. text ≡ counts_text counts) }
{
    let mut text = Bytes::new(alloc);
    push_line(&mut text, b"turns ", counts.turns)?;
    push_line(&mut text, b"taken ", counts.taken)?;
    push_line(&mut text, b"sent ", counts.sent)?;
    Ok(text)
}

/// A line of a word and a number.
fn line_of(alloc: Global, word: &[u8], number: u64) -> Result<Bytes, NoMemory>
    ensures { IfOk result (λ text. text ≡ number_line word.now number) }
{
    let mut text = Bytes::new(alloc);
    push_line(&mut text, word, number)?;
    Ok(text)
}

/// The line of a node that ended early, nothing where memory was wanting for its run, and for exits that no run has.
pub fn exit_text(alloc: Global, exit: NodeExit) -> Result<Bytes, NoMemory>
    ensures ok { IfOk result (λ text. text ≡ exit_text exit) }
    ensures err { OnErr result (exit_text exit ≢ []) }
{
    match exit {
        NodeExit::NotJournal { at } => line_of(alloc, b"not a journal: ", at),
        NodeExit::StoreFault => Bytes::from_slice(alloc, b"store fault\n"),
        NodeExit::LinkFault => Bytes::from_slice(alloc, b"link fault\n"),
        NodeExit::EtherFault => Bytes::from_slice(alloc, b"ether fault\n"),
        NodeExit::UplinkFault => Bytes::from_slice(alloc, b"uplink fault\n"),
        NodeExit::StoreFull { records } => line_of(alloc, b"store full: ", u64::from(records)),
        NodeExit::Ok | NodeExit::Usage | NodeExit::WriteFault | NodeExit::NoMemory => {
            Ok(Bytes::new(alloc))
        }
    }
}
