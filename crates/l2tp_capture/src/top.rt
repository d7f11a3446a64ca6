//! The top call.

ghost use Rattle.std.specs.Prelude.{◌≡◌, map, string_bytes};
ghost use Rattle.l2tp_capture.specs.declared.words.Asked.TheVariants as asked;
ghost use Rattle.l2tp_capture.specs.declared.exit.Exit.TheVariants as exits;
ghost use Rattle.l2tp_capture.specs.Words.{asked_of};
ghost use Rattle.l2tp_capture.specs.Texts.{bad_line_text, too_long_text};
ghost use Rattle.l2tp_capture.specs.Captures.{capture_of};
ghost use Rattle.l2tp_capture.specs.Ends.{Ends, MayTell, Writes, Tells, TellsUnread, Shows};

use crate::capture::capture;
use crate::exit::Exit;
use crate::texts::{HELP, READ_FAULT, USAGE, VERSION, bad_line_text, too_long_text};
use crate::words::{Asked, asked_of};
use port_traits::{ReadError, Sink, Source, read_text, write_all};
use report_reading::ReportError;
use std::alloc::Global;

/// Writes what is due, or gives a write fault.
fn put<K: Sink>(out: &mut K, output: &[u8]) -> Exit
    ensures { Writes result output.now (K.faults out.old) (K.faults out.new) (K.taken out.old) (K.taken out.new) }
{
    match write_all(out, output) {
        Ok(()) => Exit::Ok,
        Err(_) => Exit::WriteFault,
    }
}

/// Tells a message, as far as it can be told, and gives the exit that goes with it.
fn warn<E: Sink>(err: &mut E, message: &[u8], exit: Exit) -> Exit
    ensures same { result ≡ exit }
    ensures told { MayTell message.now (E.faults err.old) (E.faults err.new) (E.taken err.old) (E.taken err.new) }
{
    match write_all(err, message) {
        Ok(()) => exit,
        Err(_) => exit,
    }
}

/// Tells a line that no report has.
fn warn_bad_line<E: Sink>(alloc: Global, err: &mut E, line: u64) -> Exit
    ensures { Tells result (exits.BadLine line) (bad_line_text line) (E.faults err.old) (E.faults err.new) (E.taken err.old) (E.taken err.new) }
{
    match bad_line_text(alloc, line) {
        Ok(message) => warn(err, message.as_slice(), Exit::BadLine { line }),
        Err(_) => Exit::NoMemory,
    }
}

/// Tells that a text passes a limit.
fn warn_too_long<E: Sink>(alloc: Global, err: &mut E, lines: u64) -> Exit
    ensures { Tells result (exits.TooLong lines) (too_long_text lines) (E.faults err.old) (E.faults err.new) (E.taken err.old) (E.taken err.new) }
{
    match too_long_text(alloc, lines) {
        Ok(message) => warn(err, message.as_slice(), Exit::TooLong { lines }),
        Err(_) => Exit::NoMemory,
    }
}

/// Tells why a text wasn't read.
fn warn_unread<E: Sink>(alloc: Global, err: &mut E, error: ReadError) -> Exit
    ensures { TellsUnread error result (E.faults err.old) (E.faults err.new) (E.taken err.old) (E.taken err.new) }
{
    match error {
        ReadError::Fault => warn(err, READ_FAULT, Exit::ReadFault),
        ReadError::TooLong { lines } => warn_too_long(alloc, err, lines),
        ReadError::NoMemory => Exit::NoMemory,
    }
}

/// Writes the capture of a report, or tells its first bad line.
fn show<K: Sink, E: Sink>(alloc: Global, text: &[u8], out: &mut K, err: &mut E) -> Exit
    ensures { Shows (capture_of text.now) result (record {
      out_before = K.faults out.old;
      out_after = K.faults out.new;
      taken_before = K.taken out.old;
      taken_after = K.taken out.new;
      err_before = E.faults err.old;
      err_after = E.faults err.new;
      told_before = E.taken err.old;
      told_after = E.taken err.new;
    }) }
{
    match capture(alloc, text) {
        Ok(file) => put(out, file.as_slice()),
        Err(ReportError::BadLine { line }) => warn_bad_line(alloc, err, line),
        Err(ReportError::NoMemory) => Exit::NoMemory,
    }
}

/// Writes the capture of the report that the source has.
fn run<S: Source, K: Sink, E: Sink>(alloc: Global, source: &mut S, out: &mut K, err: &mut E) -> Exit
    ensures { Ends asked.Capture result (record {
      left = S.left source.old;
      left_after = S.left source.new;
      source_before = S.faults source.old;
      source_after = S.faults source.new;
      out_before = K.faults out.old;
      out_after = K.faults out.new;
      taken_before = K.taken out.old;
      taken_after = K.taken out.new;
      err_before = E.faults err.old;
      err_after = E.faults err.new;
      told_before = E.taken err.old;
      told_after = E.taken err.new;
    }) }
{
    match read_text(alloc, source) {
        Ok(text) => show(alloc, text.as_slice(), out, err),
        Err(error) => warn_unread(alloc, err, error),
    }
}

/// Does what the words after the program's name ask for, over a source and two sinks: that of what is written, and that of what is told
/// beside it.
///
/// Without words it reads a report to its end, or to where it passes a limit, and writes its capture. `--help` and `--version` write
/// their texts. Of other words, of a line that no report has and of a text that passes a limit it tells, and writes nothing. That a
/// message can't be told doesn't change the exit.
pub fn capture_top<S: Source, K: Sink, E: Sink>(
    alloc: Global,
    words: &[String],
    source: &mut S,
    out: &mut K,
    err: &mut E,
) -> Exit
    ensures { Ends (asked_of (map string_bytes words.now)) result (record {
      left = S.left source.old;
      left_after = S.left source.new;
      source_before = S.faults source.old;
      source_after = S.faults source.new;
      out_before = K.faults out.old;
      out_after = K.faults out.new;
      taken_before = K.taken out.old;
      taken_after = K.taken out.new;
      err_before = E.faults err.old;
      err_after = E.faults err.new;
      told_before = E.taken err.old;
      told_after = E.taken err.new;
    }) }
{
    match asked_of(words) {
        Asked::Capture => run(alloc, source, out, err),
        Asked::Help => put(out, HELP),
        Asked::Version => put(out, VERSION),
        Asked::Nothing => warn(err, USAGE, Exit::Usage),
    }
}
