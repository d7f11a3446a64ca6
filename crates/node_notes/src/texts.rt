//! Lines. Each is appended to the text before it; where memory is wanting, a part of it may be.

ghost use Rattle.std.specs.Prelude.{◌≡◌, ◌≢◌, ◌<◌, [], ◌++◌, length, OnOk, OnErr, option_to_list};
ghost use Rattle.std.specs.List.{flat_map};
ghost use Rattle.node_notes.specs.Notes.{missing, notes_at};
ghost use Rattle.node_notes.specs.Texts.{tunnel_peer_text, tunnel_text, tunnel_closed_text, told_text, call_up_words, call_up_text, gone_words, gone_text, note_text, notes_text};

use crate::causes::cause_with;
use crate::note::{Note, Told, note_of};
use crate::pieces::{push_address, push_count, push_subscriber, push_told, push_word};
use end_model::{Move, Out};
use wire_base::{Bytes, Cause, NoMemory};

/// A tunnel that is there, in words, and its peer behind them.
#[tactic(auto, unfolding(crate::specs::Texts::tunnel_peer_text))]
fn push_tunnel_peer(
    out: &mut Bytes,
    tunnel: u16,
    words: &[u8],
    peer: u32,
    remote: u16,
) -> Result<(), NoMemory>
    ensures { OnOk result (out.new ≡ out.old ++ tunnel_peer_text tunnel words.now peer remote) }
{
    out.push_slice(b"tunnel")?;
    push_count(out, u32::from(tunnel))?;
    push_word(out, words)?;
    push_address(out, peer)?;
    push_word(out, b"remote")?;
    push_count(out, u32::from(remote))?;
    out.push_slice(b"\n")
}

/// What became of a tunnel, in words.
#[tactic(auto, unfolding(crate::specs::Texts::tunnel_text))]
fn push_tunnel(out: &mut Bytes, tunnel: u16, words: &[u8]) -> Result<(), NoMemory>
    ensures { OnOk result (out.new ≡ out.old ++ tunnel_text tunnel words.now) }
{
    out.push_slice(b"tunnel")?;
    push_count(out, u32::from(tunnel))?;
    push_word(out, words)?;
    out.push_slice(b"\n")
}

/// A tunnel that this end closed.
#[tactic(auto, unfolding(crate::specs::Texts::tunnel_closed_text))]
fn push_closed(out: &mut Bytes, tunnel: u16, told: &Told) -> Result<(), NoMemory>
    ensures { OnOk result (out.new ≡ out.old ++ tunnel_closed_text tunnel told.now) }
{
    out.push_slice(b"tunnel")?;
    push_count(out, u32::from(tunnel))?;
    push_word(out, b"closed")?;
    push_told(out, told)?;
    out.push_slice(b"\n")
}

/// Which call is up, over which tunnel, and the id that its peer assigned.
#[tactic(auto, unfolding(crate::specs::Texts::call_up_words))]
fn push_call_up_words(out: &mut Bytes, call: u16, tunnel: u16, remote: u16) -> Result<(), NoMemory>
    ensures { OnOk result (out.new ≡ out.old ++ call_up_words call tunnel remote) }
{
    out.push_slice(b"call")?;
    push_count(out, u32::from(call))?;
    push_word(out, b"up tunnel")?;
    push_count(out, u32::from(tunnel))?;
    push_word(out, b"remote")?;
    push_count(out, u32::from(remote))
}

/// A call that is established.
fn push_call_up(
    out: &mut Bytes,
    call: u16,
    tunnel: u16,
    remote: u16,
    who: &Option<[u8; 6]>,
) -> Result<(), NoMemory>
    ensures { OnOk result (out.new ≡ out.old ++ call_up_text call tunnel remote who.now) }
{
    push_call_up_words(out, call, tunnel, remote)?;
    push_subscriber(out, who)?;
    out.push_slice(b"\n")
}

/// Which call is gone, and over which tunnel it was.
#[tactic(auto, unfolding(crate::specs::Texts::gone_words))]
fn push_gone_words(out: &mut Bytes, call: u32, tunnel: u16) -> Result<(), NoMemory>
    ensures { OnOk result (out.new ≡ out.old ++ gone_words call tunnel) }
{
    out.push_slice(b"call")?;
    push_count(out, call)?;
    push_word(out, b"gone tunnel")?;
    push_count(out, u32::from(tunnel))
}

/// A call that ended, of which the peer was told.
fn push_gone_told(out: &mut Bytes, call: u16, tunnel: u16, told: &Told) -> Result<(), NoMemory>
    ensures { OnOk result (out.new ≡ out.old ++ gone_text call tunnel (told_text told.now)) }
{
    push_gone_words(out, u32::from(call), tunnel)?;
    push_told(out, told)?;
    out.push_slice(b"\n")
}

/// A call that ended, and what stands behind that, if anything.
fn push_gone(out: &mut Bytes, call: u32, tunnel: u16, behind: &[u8]) -> Result<(), NoMemory>
    ensures { OnOk result (out.new ≡ out.old ++ gone_text call tunnel behind.now) }
{
    push_gone_words(out, call, tunnel)?;
    out.push_slice(behind)?;
    out.push_slice(b"\n")
}

/// The line of a note.
#[tactic(auto, unfolding(crate::specs::Texts::note_text))]
fn push_note(out: &mut Bytes, note: &Note) -> Result<(), NoMemory>
    ensures { OnOk result (out.new ≡ out.old ++ note_text note.now) }
{
    match note {
        Note::TunnelUp {
            tunnel,
            peer,
            remote,
        } => push_tunnel_peer(out, *tunnel, b"up peer", *peer, *remote),
        Note::TunnelRestored {
            tunnel,
            peer,
            remote,
        } => push_tunnel_peer(out, *tunnel, b"restored peer", *peer, *remote),
        Note::TunnelFrozen { tunnel } => push_tunnel(out, *tunnel, b"frozen"),
        Note::TunnelRecovered { tunnel } => push_tunnel(out, *tunnel, b"recovered"),
        Note::TunnelClosed { tunnel, told } => push_closed(out, *tunnel, told),
        Note::TunnelClosedBy { tunnel } => push_tunnel(out, *tunnel, b"closed by peer"),
        Note::TunnelLost { tunnel } => push_tunnel(out, *tunnel, b"lost"),
        Note::TunnelRemoved { tunnel } => push_tunnel(out, *tunnel, b"removed"),
        Note::CallUp {
            call,
            tunnel,
            remote,
            subscriber,
        } => push_call_up(out, *call, *tunnel, *remote, subscriber),
        Note::CallGone { call, tunnel, told } => push_gone_told(out, *call, *tunnel, told),
        Note::CallGoneBy { call, tunnel } => push_gone(out, *call, *tunnel, b" by peer"),
        Note::CallLeft { call, tunnel } => push_gone(out, u32::from(*call), *tunnel, b""),
        Note::CallMissing { call, tunnel } => push_gone(out, *call, *tunnel, b" not at peer"),
    }
}

/// The line of a note, if there is one.
#[tactic(auto, using(crate::proofs::Lines::no_line_is_empty))]
fn push_if_any(out: &mut Bytes, note: &Option<Note>) -> Result<(), NoMemory>
    ensures ok { OnOk result (out.new ≡ out.old ++ flat_map note_text (option_to_list note.now)) }
    ensures err { OnErr result (0 < length (flat_map note_text (option_to_list note.now))) }
{
    match note {
        Some(note) => push_note(out, note),
        None => Ok(()),
    }
}

/// The lines of calls that the peer doesn't have.
#[tactic(auto, unfolding(crate::specs::Texts::note_text), using(crate::proofs::Lines::no_line_is_empty))]
fn push_missing(out: &mut Bytes, tunnel: u16, calls: &[u32]) -> Result<(), NoMemory>
    ensures ok { OnOk result (out.new ≡ out.old ++ flat_map note_text (missing tunnel calls.now)) }
    ensures err { OnErr result (0 < length (flat_map note_text (missing tunnel calls.now))) }
{
    for call in calls {
        let call = *call;
        push_note(out, &Note::CallMissing { call, tunnel })?;
    }
    Ok(())
}

/// The lines of a move, with which the step told this cause.
#[tactic(auto, unfolding(crate::specs::Notes::notes_at))]
fn push_move(out: &mut Bytes, step: &Move, cause: Option<Cause>) -> Result<(), NoMemory>
    ensures ok { OnOk result (out.new ≡ out.old ++ flat_map note_text (notes_at step.now cause)) }
    ensures err { OnErr result (0 < length (flat_map note_text (notes_at step.now cause))) }
{
    match step {
        Move::TookAnswer(took) => push_missing(out, took.tunnel, took.ended.as_slice()),
        _ => push_if_any(out, &note_of(step, cause)),
    }
}

/// Appends the lines that an operator reads of a step, by its moves and its outputs: `docs/notes.md` has their forms. A step by which
/// neither a tunnel nor a call of the end comes up or ends, and no tunnel is restored, frozen or recovered, has none, and takes no memory.
/// Where memory is wanting, for a line that there is, a part of the lines may be appended, and whoever asked for them drops them.
#[tactic(auto, unfolding(crate::specs::Notes::notes_by))]
pub fn push_notes(out: &mut Bytes, moves: &[Move], outputs: &[Out]) -> Result<(), NoMemory>
    ensures ok { OnOk result (out.new ≡ out.old ++ notes_text moves.now outputs.now) }
    ensures err { OnErr result (notes_text moves.now outputs.now ≢ []) }
{
    let mut left = outputs;
    for step in moves {
        let (cause, behind) = cause_with(step, left);
        left = behind;
        push_move(out, step, cause)?;
    }
    Ok(())
}
