//! Reading a whole report.

ghost use Rattle.std.specs.Prelude.{◌≡◌, ℕ, ◌+◌, ◌<◌, List, ◌∷◌, ◌++◌, length, IfOk, Some};
ghost use Rattle.std.specs.List.{AllByRecursion};
ghost use Rattle.wire_base.specs.Answers.{Gives};
ghost use Rattle.schedule_text.specs.Reading.{text_lines};
ghost use Rattle.report_reading.specs.declared.entry.Entry.{Entry};
ghost use Rattle.report_reading.specs.Grammar.{sent_text, FitsSent, IsSpelled};
ghost use Rattle.report_reading.specs.Reading.{Told, line_of, put_front, entries_from, entries_of, IsCarried};

use crate::entry::Entries;
use crate::error::ReportError;
use crate::line_reading::read_line;
use crate::parts::split_once;
use std::alloc::Global;

/// The bytes of the first line, and those behind its line feed.
#[tactic(auto, using(schedule_text::proofs::TextLines::first_fed, schedule_text::proofs::TextLines::first_unfed))]
fn first_line(text: &[u8]) -> (&[u8], &[u8])
    requires { 0 < length text.now }
    ensures line { text_lines text.now ≡ result.0.now ∷ text_lines result.1.now }
    ensures shorter { length result.1.now < length text.now }
{
    match split_once(text, b'\n') {
        Some(parts) => parts,
        None => (text, &[]),
    }
}

fn read_all(alloc: Global, text: &[u8]) -> Result<Entries, ReportError>
    ensures { Gives Told (λ v. v) result (entries_of text.now) }
{
    let mut entries = Entries::new(alloc);
    let mut rest = text;
    while !rest.is_empty() {
        let (bytes, others) = first_line(rest);
        let Some(entry) = read_line(alloc, bytes)? else {
            return Err(ReportError::BadLine {
                line: entries.len() as u64 + 1,
            });
        };
        entries.push(entry)?;
        rest = others;
    }
    Ok(entries)
}

/// What each line of a report tells, in time and memory that grow with the text alone.
///
/// The text is a list of lines in ASCII, each ended by a line feed, which the last may lack; the empty text has none. Words are
/// parted by one space, numbers are decimal without sign or leading zero, and bytes are pairs of hex digits in lower case. Lines of
/// each kind are looked at one by one: no rule goes over the whole report.
/// The error tells the first line that no report has, counted from 1.
pub fn read_report(alloc: Global, text: &[u8]) -> Result<Entries, ReportError>
    // The answer as a function of the text, unless memory is wanting.
    ensures exact { Gives Told (λ v. v) result (entries_of text.now) }
    // Each datagram and each frame fits into one packet.
    ensures carried { IfOk result (AllByRecursion IsCarried) }
{
    read_all(alloc, text)
}

/// A law: a line that is read as what was sent is the one spelling of it, and a line that spells what was sent is read as that, also in
/// front of other lines.
pub fn sent_lines_are_read()
    ensures found { (text : List ℕ) (e : Entry) → line_of text ≡ Some e → IsSpelled e text }
    ensures again { (e : Entry) → FitsSent e → line_of (sent_text e) ≡ Some e }
    ensures in_front { (e : Entry) (number : ℕ) (rest : List ℕ) → FitsSent e →
        entries_from number (text_lines (sent_text e ++ 10 ∷ rest)) ≡ put_front e (entries_from (number + 1) (text_lines rest)) }
{}
