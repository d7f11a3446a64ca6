//! Lines are written in their one spelling, each with a line feed behind it.

ghost use Rattle.std.specs.Prelude.{◌≡◌, ◌++◌, ◌∷◌, [], codes, OnOk, IfOk, Ok};
ghost use Rattle.std.specs.List.{flat_map};
ghost use Rattle.std.specs.Fmt.{decimal};
ghost use Rattle.hex.specs.Hex.{encode_lower};
ghost use Rattle.schedule_text.specs.Grammar.{AreLines, IsSchedule, call_text, secret_text, mode_text, kept_text, line_text, spelling};
ghost use Rattle.schedule_text.specs.Reading.{lines_of};

use itoa::Buffer;
use schedule_text::{Line, Lines};
use std::alloc::Global;
use wire_base::{Bytes, NoMemory};

/// Appends a word, with the space or whatever ends it, and a number in decimal.
fn push_number(out: &mut Bytes, word: &[u8], number: u64) -> Result<(), NoMemory>
    ensures { OnOk result (out.new ≡ out.old ++ word.now ++ decimal number) }
{
    let mut digits = Buffer::new();
    out.push_slice(word)?;
    out.push_slice(digits.format(number).as_bytes())
}

/// Appends a word, and two numbers with a space between them.
fn push_numbers(out: &mut Bytes, word: &[u8], first: u64, second: u64) -> Result<(), NoMemory>
    ensures { OnOk result (out.new ≡ out.old ++ word.now ++ decimal first ++ codes " " ++ decimal second) }
{
    push_number(out, word, first)?;
    push_number(out, b" ", second)
}

/// Appends bytes in hex, in lower case.
fn push_hex(out: &mut Bytes, bytes: &[u8]) -> Result<(), NoMemory>
    ensures { OnOk result (out.new ≡ out.old ++ encode_lower bytes.now) }
{
    let digits = hex::encode(out.allocator(), bytes)?;
    out.push_slice(digits.as_bytes())
}

/// Appends a word, and a node, a session of it and a frame.
fn push_call(
    out: &mut Bytes,
    word: &[u8],
    node: u8,
    session: u16,
    frame: &Bytes,
) -> Result<(), NoMemory>
    ensures { OnOk result (out.new ≡ out.old ++ word.now ++ call_text node session frame.now) }
{
    push_numbers(out, word, u64::from(node), u64::from(session))?;
    out.push_slice(b" ")?;
    push_hex(out, frame.as_slice())
}

/// Appends a secret, or that there is none.
fn push_secret(out: &mut Bytes, secret: &Option<Bytes>) -> Result<(), NoMemory>
    ensures { OnOk result (out.new ≡ out.old ++ secret_text secret.now) }
{
    match secret {
        Some(secret) => push_hex(out, secret.as_slice()),
        None => out.push_slice(b"-"),
    }
}

/// Whether calling numbers are hidden, as a word.
fn mode_word(hide: bool) -> &'static [u8]
    ensures { result.now ≡ mode_text hide }
{
    if hide {
        b"hide".as_slice()
    } else {
        b"plain".as_slice()
    }
}

/// Whether what a stop commits is kept, as a word.
fn kept_word(kept: bool) -> &'static [u8]
    ensures { result.now ≡ kept_text kept }
{
    if kept {
        b"kept".as_slice()
    } else {
        b"lost".as_slice()
    }
}

/// Appends the line of a stop.
fn push_stop(out: &mut Bytes, node: u8, commit: u8, call: u8, kept: bool) -> Result<(), NoMemory>
    ensures { OnOk result (out.new ≡ out.old ++ codes "stop " ++ decimal node ++ codes " " ++ decimal commit ++ codes " " ++ decimal call ++ codes " " ++ kept_text kept) }
{
    push_numbers(out, b"stop ", u64::from(node), u64::from(commit))?;
    push_number(out, b" ", u64::from(call))?;
    out.push_slice(b" ")?;
    out.push_slice(kept_word(kept))
}

/// Appends the line of a LAC.
fn push_lac(
    out: &mut Bytes,
    node: u8,
    lns: u8,
    secret: &Option<Bytes>,
    hide: bool,
) -> Result<(), NoMemory>
    ensures { OnOk result (out.new ≡ out.old ++ codes "lac " ++ decimal node ++ codes " " ++ decimal lns ++ codes " " ++ secret_text secret.now ++ codes " " ++ mode_text hide) }
{
    push_numbers(out, b"lac ", u64::from(node), u64::from(lns))?;
    out.push_slice(b" ")?;
    push_secret(out, secret)?;
    out.push_slice(b" ")?;
    out.push_slice(mode_word(hide))
}

/// Appends the line of an LNS.
fn push_lns(out: &mut Bytes, node: u8, secret: &Option<Bytes>) -> Result<(), NoMemory>
    ensures { OnOk result (out.new ≡ out.old ++ codes "lns " ++ decimal node ++ codes " " ++ secret_text secret.now) }
{
    push_number(out, b"lns ", u64::from(node))?;
    out.push_slice(b" ")?;
    push_secret(out, secret)
}

/// Appends the line of an Ethernet frame.
fn push_frame(out: &mut Bytes, node: u8, bytes: &[u8]) -> Result<(), NoMemory>
    ensures { OnOk result (out.new ≡ out.old ++ codes "frame " ++ decimal node ++ codes " " ++ encode_lower bytes.now) }
{
    push_number(out, b"frame ", u64::from(node))?;
    out.push_slice(b" ")?;
    push_hex(out, bytes)
}

/// Appends a remark.
fn push_remark(out: &mut Bytes, text: &[u8]) -> Result<(), NoMemory>
    ensures { OnOk result (out.new ≡ out.old ++ codes "#" ++ text.now) }
{
    out.push_slice(b"#")?;
    out.push_slice(text)
}

/// Appends a line, without its line feed.
fn push_line(out: &mut Bytes, line: &Line) -> Result<(), NoMemory>
    ensures { OnOk result (out.new ≡ out.old ++ line_text line.now) }
{
    match line {
        Line::Remark { text } => push_remark(out, text.as_slice()),
        Line::Lac {
            node,
            lns,
            secret,
            hide,
        } => push_lac(out, *node, *lns, secret, *hide),
        Line::Lns { node, secret } => push_lns(out, *node, secret),
        Line::OpenUp { node } => push_number(out, b"open ", u64::from(*node)),
        Line::Close { node, tunnel } => {
            push_numbers(out, b"close ", u64::from(*node), u64::from(*tunnel))
        }
        Line::Ring { node, port } => {
            push_numbers(out, b"ring ", u64::from(*node), u64::from(*port))
        }
        Line::FromSub {
            node,
            session,
            frame,
        } => push_call(out, b"data ", *node, *session, frame),
        Line::Down {
            node,
            session,
            frame,
        } => push_call(out, b"down ", *node, *session, frame),
        Line::Hang { node, session } => {
            push_numbers(out, b"hang ", u64::from(*node), u64::from(*session))
        }
        Line::DropCall { node, session } => {
            push_numbers(out, b"drop ", u64::from(*node), u64::from(*session))
        }
        Line::Frame { node, bytes } => push_frame(out, *node, bytes.as_slice()),
        Line::Deliver { packet } => push_number(out, b"deliver ", u64::from(*packet)),
        Line::Load { node, packet } => {
            push_numbers(out, b"load ", u64::from(*node), u64::from(*packet))
        }
        Line::Hand { node, number } => {
            push_numbers(out, b"hand ", u64::from(*node), u64::from(*number))
        }
        Line::Tick { node, milliseconds } => {
            push_numbers(out, b"tick ", u64::from(*node), u64::from(*milliseconds))
        }
        Line::Crash { node } => push_number(out, b"crash ", u64::from(*node)),
        Line::Stop {
            node,
            commit,
            call,
            kept,
        } => push_stop(out, *node, *commit, *call, *kept),
        Line::Start { node } => push_number(out, b"start ", u64::from(*node)),
    }
}

/// Appends a line with its line feed.
fn push_ended(out: &mut Bytes, line: &Line) -> Result<(), NoMemory>
    ensures { OnOk result (out.new ≡ out.old ++ line_text line.now ++ 10 ∷ []) }
{
    push_line(out, line)?;
    out.push_slice(b"\n")
}

/// Appends lines, each with its line feed.
fn push_lines(out: &mut Bytes, lines: &[Line]) -> Result<(), NoMemory>
    ensures { OnOk result (out.new ≡ out.old ++ spelling lines.now) }
{
    for line in lines {
        push_ended(out, line)?;
    }
    Ok(())
}

/// The text of the lines: each in its one spelling, and a line feed behind it.
#[tactic(auto, using(crate::proofs::Again::written_schedule, crate::proofs::Again::written_again))]
pub fn write_schedule(alloc: Global, lines: &Lines) -> Result<Bytes, NoMemory>
    ensures spelled { IfOk result (λ text. text ≡ spelling lines.now) }
    // Where the lines are in the grammar, the text is a schedule, and reading it gives the lines again.
    ensures schedule { AreLines lines.now → IfOk result (λ text. IsSchedule text lines.now) }
    ensures again { AreLines lines.now → IfOk result (λ text. lines_of text ≡ Ok lines.now) }
{
    let mut text = Bytes::new(alloc);
    push_lines(&mut text, lines.as_slice())?;
    Ok(text)
}
