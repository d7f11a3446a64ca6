//! The capture of a report.

ghost use Rattle.std.specs.Prelude.{◌≡◌, ◌≤◌, ◌++◌, length, OnOk, IfOk};
ghost use Rattle.std.specs.List.{flat_map, AllByRecursion};
ghost use Rattle.wire_base.specs.Answers.{Gives};
ghost use Rattle.capture_file.specs.Frames.{datagram_frame};
ghost use Rattle.capture_file.specs.Files.{record_bytes};
ghost use Rattle.report_reading.specs.Reading.{Told, IsCarried};
ghost use Rattle.l2tp_capture.specs.Captures.{record_of, capture_with, capture_of};

use capture_file::{datagram_frame, push_file_head, push_record};
use report_reading::{Entry, ReportError, read_report};
use std::alloc::Global;
use wire_base::{Bytes, NoMemory};

/// Appends the record of a datagram.
fn push_datagram(
    out: &mut Bytes,
    line: u32,
    packet: u32,
    from: u8,
    to: u8,
    bytes: &[u8],
) -> Result<(), NoMemory>
    requires { length bytes.now ≤ 65507 }
    ensures { OnOk result (out.new ≡ out.old ++ record_bytes line (datagram_frame packet from to bytes.now)) }
{
    let frame = datagram_frame(out.allocator(), packet, from, to, bytes)?;
    push_record(out, line, frame.as_slice())
}

/// Appends the record of what a line tells, where it tells of something that was sent.
fn push_entry(out: &mut Bytes, entry: &Entry) -> Result<(), NoMemory>
    requires { IsCarried entry.now }
    ensures { OnOk result (out.new ≡ out.old ++ record_of entry.now) }
{
    match entry {
        Entry::Datagram {
            line,
            packet,
            from,
            to,
            bytes,
        } => push_datagram(out, *line, *packet, *from, *to, bytes.as_slice()),
        Entry::Frame { line, bytes, .. } => push_record(out, *line, bytes.as_slice()),
        Entry::Other => Ok(()),
    }
}

/// Appends the records of what lines tell.
fn push_entries(out: &mut Bytes, entries: &[Entry]) -> Result<(), NoMemory>
    requires { AllByRecursion IsCarried entries.now }
    ensures { OnOk result (out.new ≡ out.old ++ flat_map record_of entries.now) }
{
    for entry in entries {
        push_entry(out, entry)?;
    }
    Ok(())
}

/// The capture with these entries.
fn capture_with(alloc: Global, entries: &[Entry]) -> Result<Bytes, NoMemory>
    requires { AllByRecursion IsCarried entries.now }
    ensures { IfOk result (λ file. file ≡ capture_with entries.now) }
{
    let mut file = Bytes::new(alloc);
    push_file_head(&mut file)?;
    push_entries(&mut file, entries)?;
    Ok(file)
}

/// The capture of a report: a classic pcap file, its numbers the highest byte first, with a frame for each datagram and each Ethernet
/// frame that the report tells of, in its order. Where a line is none of a report it tells the first such one, counted from 1.
pub fn capture(alloc: Global, text: &[u8]) -> Result<Bytes, ReportError>
    ensures { Gives Told (λ file. file) result (capture_of text.now) }
{
    let entries = read_report(alloc, text)?;
    let file = capture_with(alloc, entries.as_slice())?;
    Ok(file)
}
