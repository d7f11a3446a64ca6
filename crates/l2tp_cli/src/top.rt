//! The top call.

ghost use Rattle.std.specs.Prelude.{◌≡◌, map, string_bytes};
ghost use Rattle.l2tp_cli.specs.declared.words.Asked.TheVariants as asked;
ghost use Rattle.l2tp_cli.specs.Words.{asked_of};
ghost use Rattle.l2tp_cli.specs.Ends.{Ends, Tells};
ghost use Rattle.l2tp_cli.specs.Runs.{Calm, Facts, Headline, Origins};

use crate::answer::answer_to;
use crate::exit::Exit;
use crate::texts::{HELP, READ_FAULT, USAGE, VERSION, too_long_text};
use crate::words::{Asked, asked_of};
use port_traits::{ReadError, Sink, Source, read_text, write_all};
use std::alloc::Global;

/// Writes a text, and gives the exit that goes with it, or a write fault.
pub(crate) fn tell<K: Sink>(sink: &mut K, text: &[u8], exit: Exit) -> Exit
    ensures { Tells result exit text.now (K.faults sink.old) (K.faults sink.new) (K.taken sink.old) (K.taken sink.new) }
{
    match write_all(sink, text) {
        Ok(()) => exit,
        Err(_) => Exit::WriteFault,
    }
}

/// Runs the schedule that the source has, and writes its report to the sink.
fn run<S: Source, K: Sink>(alloc: Global, source: &mut S, sink: &mut K) -> Exit
    ensures { Ends asked.Replay result (record {
      left = S.left source.old;
      left_after = S.left source.new;
      source_before = S.faults source.old;
      source_after = S.faults source.new;
      sink_before = K.faults sink.old;
      sink_after = K.faults sink.new;
      taken_before = K.taken sink.old;
      taken_after = K.taken sink.new;
    }) }
{
    let text = match read_text(alloc, source) {
        Ok(text) => text,
        Err(ReadError::Fault) => return tell(sink, READ_FAULT, Exit::ReadFault),
        Err(ReadError::TooLong { lines }) => {
            let Ok(text) = too_long_text(alloc, lines) else {
                return Exit::NoMemory;
            };
            return tell(sink, text.as_slice(), Exit::TooLong { lines });
        }
        Err(ReadError::NoMemory) => return Exit::NoMemory,
    };
    match answer_to(alloc, text.as_slice()) {
        Ok(answer) => tell(sink, answer.text.as_slice(), answer.exit),
        Err(_) => Exit::NoMemory,
    }
}

/// Runs the command that the words ask for.
fn command<S: Source, K: Sink>(
    alloc: Global,
    words: &[String],
    source: &mut S,
    sink: &mut K,
) -> Exit
    ensures { Ends (asked_of (map string_bytes words.now)) result (record {
      left = S.left source.old;
      left_after = S.left source.new;
      source_before = S.faults source.old;
      source_after = S.faults source.new;
      sink_before = K.faults sink.old;
      sink_after = K.faults sink.new;
      taken_before = K.taken sink.old;
      taken_after = K.taken sink.new;
    }) }
{
    match asked_of(words) {
        Asked::Replay => run(alloc, source, sink),
        Asked::Help => tell(sink, HELP, Exit::Ok),
        Asked::Version => tell(sink, VERSION, Exit::Ok),
        Asked::Nothing => tell(sink, USAGE, Exit::Usage),
    }
}

/// Runs the command that the words after the program's name ask for, over a source and a sink.
///
/// For `replay` it reads a schedule to its end, or to where it passes a limit, runs it, and writes the report of the run.
/// `--help` and `--version` write their texts; other words write how the program is used.
///
/// What the clause `ends` says is of this call. The others speak of the run of every list of lines of the grammar, crashes among them,
/// whether this text spells it or another, or none has room for it:
///
/// - `headline`, of those of fewer than 2^47 lines, as those of each text within the limits are: each PPP frame that is handed up
///   was sent in that call by its other end; ends that agree hold the same established sessions; and every call request is
///   answered by the tables, each refusal's cause standing;
/// - `facts`, of what that rests on: nodes and their checkpoints, epochs and letters, marks, calls, and cells;
/// - `origins`, of the frames and the requests of those of any length;
/// - `calm`, of those without crashes: what control connections carry.
pub fn replay_top<S: Source, K: Sink>(
    alloc: Global,
    words: &[String],
    source: &mut S,
    sink: &mut K,
) -> Exit
    ensures ends { Ends (asked_of (map string_bytes words.now)) result (record {
      left = S.left source.old;
      left_after = S.left source.new;
      source_before = S.faults source.old;
      source_after = S.faults source.new;
      sink_before = K.faults sink.old;
      sink_after = K.faults sink.new;
      taken_before = K.taken sink.old;
      taken_after = K.taken sink.new;
    }) }
    ensures headline { Headline }
    ensures facts { Facts }
    ensures origins { Origins }
    ensures calm { Calm }
{
    schedule_text::lines_are_a_schedule();
    frame_laws::reports_tell_the_past();
    frame_laws::frames_were_sent();
    frame_laws::sent_frames_are_packets();
    frame_laws::facts_hold();
    frame_laws::looks_are_true();
    frame_laws::held_frames_were_sent();
    frame_laws::moves_are_main();
    connection_laws::letters_are_carried();
    connection_laws::acks_are_true();
    connection_laws::numbers_are_read();
    request_laws::calls_are_asked_for_once();
    request_laws::requests_are_taken_once();
    cause_laws::tunnels_have_room();
    cause_laws::no_end_has_too_many_tunnels();
    cause_laws::no_call_is_left();
    cause_laws::reports_tell_true_causes();
    cause_laws::requests_are_answered_in_runs();
    node_laws::books_are_of_ends();
    node_laws::records_are_in_place();
    node_laws::ids_are_above_ceilings();
    node_laws::tunnels_outlive_crashes();
    recovery_laws::sessions_go_once();
    recovery_laws::marks_never_fall();
    session_laws::ends_that_agree_hold_the_same();
    run_join_laws::worlds_are_joined();
    run_join_laws::runs_agree();
    run_join_laws::runs_cover();
    run_join_laws::runs_know();
    run_join_laws::runs_hear();
    run_join_laws::births_are_of_one_call();
    run_join_laws::calls_know_their_mates();
    stranger_laws::strangers_change_no_call();
    stranger_laws::lines_leave_others_alone();
    fact_laws::epochs_rise();
    fact_laws::epochs_enter_anew();
    fact_laws::marks_cover_draws();
    fact_laws::cells_are_booked();
    fact_laws::ids_are_drawn_once();
    command(alloc, words, source, sink)
}
