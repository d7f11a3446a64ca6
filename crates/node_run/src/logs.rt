//! What a node's log is told. It has no say in what the node does: neither a log that fails nor want of memory for its lines ends anything.

ghost use Rattle.std.specs.Prelude.{◌≡◌, ◌≢◌, [], IfOk, OnErr};
ghost use Rattle.node_notes.specs.Texts.{notes_text};
ghost use Rattle.node_run.specs.Logs.{sunk, lost_text, Writes, Noted, LogsStay, LogsGrow};

use end_model::{Move, Out};
use node_notes::push_notes;
use port_traits::{Sink, write_all};
use std::alloc::Global;
use wire_base::{Bytes, NoMemory};

/// What the log is told in the place of lines for which memory was wanting.
const LOST: &[u8] = b"lines lost for want of memory\n";

/// Writes lines to a log, or a front of them where it fails. Where there is none the log isn't asked.
pub fn write_lines<K: Sink>(log: &mut K, lines: &[u8])
    ensures { Writes lines.now (sunk (K.faults log.old) (K.taken log.old)) (sunk (K.faults log.new) (K.taken log.new)) }
{
    if !lines.is_empty() {
        let _written = write_all(log, lines);
    }
}

/// Tells a log that memory was wanting for its lines.
pub fn write_lost<K: Sink>(log: &mut K)
    ensures { Writes lost_text (sunk (K.faults log.old) (K.taken log.old)) (sunk (K.faults log.new) (K.taken log.new)) }
{
    write_lines(log, LOST);
}

/// The lines of a step, by its moves and its outputs.
fn step_lines(alloc: Global, moves: &[Move], outputs: &[Out]) -> Result<Bytes, NoMemory>
    ensures ok { IfOk result (λ lines. lines ≡ notes_text moves.now outputs.now) }
    ensures err { OnErr result (notes_text moves.now outputs.now ≢ []) }
{
    let mut lines = Bytes::new(alloc);
    push_notes(&mut lines, moves, outputs)?;
    Ok(lines)
}

/// Tells a log of a step that was made, by its moves and its outputs. A step without lines leaves it as it was.
pub(crate) fn note_step<K: Sink>(alloc: Global, log: &mut K, moves: &[Move], outputs: &[Out])
    ensures { Noted (notes_text moves.now outputs.now) (sunk (K.faults log.old) (K.taken log.old)) (sunk (K.faults log.new) (K.taken log.new)) }
{
    match step_lines(alloc, moves, outputs) {
        Ok(lines) => write_lines(log, lines.as_slice()),
        Err(_) => write_lost(log),
    }
}

/// A law: a log that has what it had, and maybe more behind it, does so over one call after another.
pub fn logs_grow()
    ensures same { LogsStay }
    ensures then { LogsGrow }
{}
