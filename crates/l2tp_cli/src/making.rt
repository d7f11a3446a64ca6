//! The top call of `make`.

ghost use Rattle.std.specs.Prelude.{◌≡◌, IfOk, map, string_bytes};
ghost use Rattle.schedule_making.specs.Summaries.{summary_of, summary_text};
ghost use Rattle.schedule_making.specs.Words.{make_of};
ghost use Rattle.l2tp_cli.specs.Makes.{Makes};

use crate::exit::Exit;
use crate::texts::MAKE_USAGE;
use crate::top::tell;
use port_traits::Sink;
use schedule_making::{read_make, summarize, summary_text};
use std::alloc::Global;
use wire_base::{Bytes, NoMemory};

/// What the run of the lines of a seed comes to, as a text.
fn summary(alloc: Global, seed: u64, count: u32) -> Result<Bytes, NoMemory>
    ensures { IfOk result (λ text. text ≡ summary_text (summary_of seed count)) }
{
    let summary = summarize(alloc, seed, count)?;
    summary_text(alloc, summary)
}

/// Makes the lines of the seed that the words after the program's name tell, runs them, and writes what the run comes to, in six lines. Words
/// that aren't `make SEED COUNT` write how the command is used.
pub fn make_top<K: Sink>(alloc: Global, words: &[String], sink: &mut K) -> Exit
    ensures { Makes (make_of (map string_bytes words.now)) result (K.faults sink.old) (K.faults sink.new) (K.taken sink.old) (K.taken sink.new) }
{
    match read_make(words) {
        Some((seed, count)) => match summary(alloc, seed, count) {
            Ok(text) => tell(sink, text.as_slice(), Exit::Ok),
            Err(_) => Exit::NoMemory,
        },
        None => tell(sink, MAKE_USAGE, Exit::Usage),
    }
}
