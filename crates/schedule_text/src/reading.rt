//! Reading a whole schedule.

ghost use Rattle.std.specs.Prelude.{◌≡◌, ◌<◌, ℕ, List, ◌∷◌, length, IfOk, IfErr, Ok, Err};
ghost use Rattle.wire_base.specs.Answers.{Gives};
ghost use Rattle.schedule_text.specs.declared.line.Line.{Line};
ghost use Rattle.schedule_text.specs.declared.error.ScheduleError.TheVariants.{BadLine};
ghost use Rattle.schedule_text.specs.Grammar.{IsSchedule, IsBadLine, IsFirstBad};
ghost use Rattle.schedule_text.specs.Reading.{Told, text_lines, lines_of};

use crate::error::ScheduleError;
use crate::line::Lines;
use crate::line_reading::read_line;
use crate::parts::split_once;
use std::alloc::Global;

/// The bytes of the first line, and those behind its line feed.
#[tactic(auto, using(crate::proofs::TextLines::first_fed, crate::proofs::TextLines::first_unfed))]
fn first_line(text: &[u8]) -> (&[u8], &[u8])
    requires { 0 < length text.now }
    ensures line { text_lines text.now ≡ result.0.now ∷ text_lines result.1.now }
    ensures shorter { length result.1.now < length text.now }
{
    match split_once(text, b'\n') {
        Some(parts) => parts,
        None => (text, &[]),
    }
}

fn read_all(alloc: Global, text: &[u8]) -> Result<Lines, ScheduleError>
    ensures { Gives Told (λ v. v) result (lines_of text.now) }
{
    let mut lines = Lines::new(alloc);
    let mut rest = text;
    while !rest.is_empty() {
        let (bytes, behind) = first_line(rest);
        let Some(line) = read_line(alloc, bytes)? else {
            return Err(ScheduleError::BadLine {
                line: lines.len() as u64 + 1,
            });
        };
        lines.push(line)?;
        rest = behind;
    }
    Ok(lines)
}

/// The lines of a schedule, in time and memory that grow with the text alone.
///
/// The text is a list of lines in ASCII, each ended by a line feed, which the last may lack; the empty text has none.
/// Words are parted by one space, numbers are decimal without sign or leading zero, and frames, of calls and of
/// Ethernet, are pairs of hex digits in lower case. So are secrets, of 1 to 64 bytes; `-` says that there is none. The
/// mode of a `lac` line is `plain` or `hide`: what is hidden is hidden by the secret (RFC 2661 section 4.3), so a line
/// with the mode `hide` and no secret is a bad one.
/// The error tells the first line that isn't in the grammar, counted from 1, and nothing of its text.
pub fn read_schedule(alloc: Global, text: &[u8]) -> Result<Lines, ScheduleError>
    // What is read is a schedule.
    ensures found { IfOk result (IsSchedule text.now) }
    // A line that is told is bad, and those before it aren't; no lines are a schedule of that text.
    ensures bad { IfErr result (IsFirstBad text.now) }
    // Each schedule is read, unless memory is wanting.
    ensures only { (v : List Line) → IsSchedule text.now v → Gives Told (λ x. x) result (Ok v) }
    // The first bad line is told, unless memory is wanting.
    ensures told { (n : ℕ) → IsBadLine text.now n → Gives Told (λ x. x) result (Err (BadLine n)) }
    // For callers: the answer as a function of the text.
    ensures exact { Gives Told (λ v. v) result (lines_of text.now) }
{
    read_all(alloc, text)
}

/// A law: the lines that a text is read as, by the definition of reading, are a schedule that the text spells.
pub fn lines_are_a_schedule()
    ensures { (text : List ℕ) (lines : List Line) → lines_of text ≡ Ok lines → IsSchedule text lines }
{}
