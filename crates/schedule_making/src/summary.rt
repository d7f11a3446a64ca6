//! What the run of the lines of a seed comes to.

ghost use Rattle.std.specs.Prelude.{◌≡◌, ◌++◌, OnOk, IfOk};
ghost use Rattle.schedule_making.specs.Summaries.{number_line, summary_of, summary_text};

use crate::making::make;
use itoa::Buffer;
use std::alloc::Global;
use wire_base::{Bytes, NoMemory};

/// What a run of lines of a seed comes to.
#[derive(Clone, Copy)]
pub struct Summary {
    pub seed: u64,
    /// How many lines there are, the first three and the remarks among them.
    pub lines: u64,
    /// How many packets were sent.
    pub packets: u64,
    /// How many PPP frames were handed up.
    pub ups: u64,
    /// How many calls were born.
    pub calls: u64,
    /// How many tunnels agree with their partners at the end.
    pub agree: u64,
}

/// Makes the lines of a seed, of which so many are drawn, and tells what their run comes to. It takes time that grows with that number alone,
/// and with what the ends of the run hold.
pub fn summarize(alloc: Global, seed: u64, count: u32) -> Result<Summary, NoMemory>
    ensures { IfOk result (λ summary. summary ≡ summary_of seed count) }
{
    let made = make(alloc, seed, count)?;
    Ok(Summary {
        seed,
        lines: made.lines.as_slice().len() as u64,
        packets: made.world.packets(),
        ups: made.world.ups(),
        calls: made.world.births(),
        agree: made.world.agreements()?,
    })
}

/// Appends a word and its number, in a line.
fn push_line(out: &mut Bytes, word: &[u8], number: u64) -> Result<(), NoMemory>
    ensures { OnOk result (out.new ≡ out.old ++ number_line word.now number) }
{
    let mut digits = Buffer::new();
    out.push_slice(word)?;
    out.push_slice(digits.format(number).as_bytes())?;
    out.push_slice(b"\n")
}

/// The six lines of a summary.
#[tactic(auto, unfolding(crate::specs::Summaries::summary_text))]
pub fn summary_text(alloc: Global, summary: Summary) -> Result<Bytes, NoMemory>
    ensures { IfOk result (λ text. text ≡ summary_text summary) }
{
    let mut text = Bytes::new(alloc);
    push_line(&mut text, b"seed ", summary.seed)?;
    push_line(&mut text, b"lines ", summary.lines)?;
    push_line(&mut text, b"packets ", summary.packets)?;
    push_line(&mut text, b"ups ", summary.ups)?;
    push_line(&mut text, b"calls ", summary.calls)?;
    push_line(&mut text, b"agree ", summary.agree)?;
    Ok(text)
}
