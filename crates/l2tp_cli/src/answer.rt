//! What a text comes to.

ghost use Rattle.std.specs.Prelude.{◌≡◌, IfOk};
ghost use Rattle.schedule_text.specs.Reading.{lines_of};
ghost use Rattle.world_model.specs.Run.{run};
ghost use Rattle.l2tp_cli.specs.Due.{due, refused, due_of_run, due_of_lines};

use crate::exit::Exit;
use crate::texts::bad_line_text;
use schedule_replay::replay;
use schedule_text::{Line, ScheduleError, read_schedule};
use std::alloc::Global;
use wire_base::{Bytes, NoMemory};
use world_model::Refusal;

/// How a command ends, and the text that it writes before.
#[derive(Drop)]
pub struct Answer {
    pub exit: Exit,
    pub text: Bytes,
}

/// How a run ends at a line that is refused.
fn refused(line: u64, refusal: Refusal) -> Exit
    ensures { result ≡ refused line refusal }
{
    match refusal {
        Refusal::Unfit { why } => Exit::Unfit { line, why },
        Refusal::HalfSpace { number, count } => Exit::HalfSpace {
            line,
            number,
            count,
        },
        Refusal::Stale {
            packet_epoch,
            own_epoch,
        } => Exit::Stale {
            line,
            packet_epoch,
            own_epoch,
        },
        Refusal::StoreFull { records } => Exit::StoreFull { records },
    }
}

/// Runs the lines of a schedule.
#[tactic(auto, unfolding(crate::specs::Due::due_of_run))]
fn answer_to_lines(alloc: Global, lines: &[Line]) -> Result<Answer, NoMemory>
    ensures { IfOk result (λ a. due a.exit a.text ≡ due_of_run (run lines.now)) }
{
    let replayed = replay(alloc, lines)?;
    let exit = match replayed.fault {
        None => Exit::Ok,
        Some((line, refusal)) => refused(line, refusal),
    };
    Ok(Answer {
        exit,
        text: replayed.report,
    })
}

/// Runs the schedule that a text spells, or tells its first bad line.
#[tactic(auto, unfolding(crate::specs::Due::due_of_lines))]
pub fn answer_to(alloc: Global, text: &[u8]) -> Result<Answer, NoMemory>
    ensures { IfOk result (λ a. due a.exit a.text ≡ due_of_lines (lines_of text.now)) }
{
    match read_schedule(alloc, text) {
        Ok(lines) => answer_to_lines(alloc, lines.as_slice()),
        Err(ScheduleError::BadLine { line }) => Ok(Answer {
            exit: Exit::BadLine { line },
            text: bad_line_text(alloc, line)?,
        }),
        Err(ScheduleError::NoMemory) => Err(NoMemory),
    }
}
