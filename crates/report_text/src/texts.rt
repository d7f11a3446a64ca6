//! The lines of the report. Each is appended to the text before it; where memory is wanting, a part of it may be.

ghost use Rattle.std.specs.Prelude.{◌≡◌, ◌≤◌, ◌++◌, codes, length, OnOk};
ghost use Rattle.std.specs.Fmt.{decimal};
ghost use Rattle.hex.specs.Hex.{encode_lower};
ghost use Rattle.end_names.specs.Names.{node_of};
ghost use Rattle.world_model.specs.Texts.{◌&◌, send_text, side_word, up_text, held_text, gone_text, frame_text, farewell_text, drop_text, cause_text, stopped_text};
ghost use Rattle.world_model.specs.Run.{mode_word, query_word, tunnel_text, call_text, agree_text, down_text, unfit_text, half_space_text, stale_text, store_full_text, refusal_text};

use end_model::{Call, Control, Mode, node_of};
use itoa::Buffer;
use wire_base::{Bytes, Cause, NoMemory, Side, Why};
use world_model::Refusal;

/// Appends a number in decimal.
fn push_number(out: &mut Bytes, number: u64) -> Result<(), NoMemory>
    ensures { OnOk result (out.new ≡ out.old ++ decimal number) }
{
    let mut digits = Buffer::new();
    out.push_slice(digits.format(number).as_bytes())
}

/// Appends a space and a word.
fn push_word(out: &mut Bytes, word: &[u8]) -> Result<(), NoMemory>
    ensures { OnOk result (out.new ≡ out.old ++ codes " " ++ word.now) }
{
    out.push_slice(b" ")?;
    out.push_slice(word)
}

/// Appends a space and a number in decimal.
fn push_count(out: &mut Bytes, number: u64) -> Result<(), NoMemory>
    ensures { OnOk result (out.new ≡ out.old ++ codes " " ++ decimal number) }
{
    out.push_slice(b" ")?;
    push_number(out, number)
}

/// Appends words, and a number in decimal behind them.
fn push_numbered(out: &mut Bytes, words: &[u8], number: u64) -> Result<(), NoMemory>
    ensures { OnOk result (out.new ≡ out.old ++ words.now ++ decimal number) }
{
    out.push_slice(words)?;
    push_number(out, number)
}

/// Appends at most 64 bytes in hex, in lower case.
fn push_hex_piece(out: &mut Bytes, piece: &[u8]) -> Result<(), NoMemory>
    requires { length piece.now ≤ 64 }
    ensures { OnOk result (out.new ≡ out.old ++ encode_lower piece.now) }
{
    let mut cells = [0u8; 128];
    let (digits, _) = cells.split_at_mut(2 * piece.len());
    let Ok(()) = hex::encode_to_slice(piece, digits) else {
        unreachable!()
    };
    out.push_slice(digits)
}

/// Appends a space and bytes in hex, in lower case.
fn push_hex(out: &mut Bytes, bytes: &[u8]) -> Result<(), NoMemory>
    ensures { OnOk result (out.new ≡ out.old ++ codes " " ++ encode_lower bytes.now) }
{
    out.push_slice(b" ")?;
    let mut left = bytes;
    while !left.is_empty() {
        let (piece, rest) = left.split_at(left.len().min(64));
        push_hex_piece(out, piece)?;
        left = rest;
    }
    Ok(())
}

/// A datagram that was sent: the line, the packet's number, the two nodes, and its bytes.
#[tactic(auto, unfolding(world_model::specs::Texts::send_text))]
pub fn push_send(
    out: &mut Bytes,
    line: u64,
    packet: u64,
    from: u8,
    to: u8,
    bytes: &[u8],
) -> Result<(), NoMemory>
    ensures { OnOk result (out.new ≡ out.old ++ send_text line packet from to bytes.now) }
{
    push_number(out, line)?;
    push_word(out, b"send")?;
    push_count(out, packet)?;
    push_count(out, u64::from(from))?;
    push_count(out, u64::from(to))?;
    push_hex(out, bytes)?;
    out.push_slice(b"\n")
}

/// Where a frame goes, in ASCII.
fn side_word(side: Side) -> &'static [u8]
    ensures { result.now ≡ side_word side }
{
    match side {
        Side::Sub => b"sub",
        Side::Net => b"net",
        Side::Lcp => b"lcp",
    }
}

/// A PPP frame that is handed up: the line, the node, the call's local session and birth, where it goes, and its bytes.
#[tactic(auto, unfolding(world_model::specs::Texts::up_text))]
pub fn push_up(
    out: &mut Bytes,
    line: u64,
    node: u8,
    session: u16,
    birth: u64,
    side: Side,
    frame: &[u8],
) -> Result<(), NoMemory>
    ensures { OnOk result (out.new ≡ out.old ++ up_text line node session birth side frame.now) }
{
    push_number(out, line)?;
    push_word(out, b"up")?;
    push_count(out, u64::from(node))?;
    push_count(out, u64::from(session))?;
    push_count(out, birth)?;
    push_word(out, side_word(side))?;
    push_hex(out, frame)?;
    out.push_slice(b"\n")
}

/// A frame that is held: the line, the node, and the frame's number.
#[tactic(auto, unfolding(world_model::specs::Texts::held_text))]
pub fn push_held(out: &mut Bytes, line: u64, node: u8, number: u32) -> Result<(), NoMemory>
    ensures { OnOk result (out.new ≡ out.old ++ held_text line node number) }
{
    push_number(out, line)?;
    push_word(out, b"held")?;
    push_count(out, u64::from(node))?;
    push_count(out, u64::from(number))?;
    out.push_slice(b"\n")
}

/// A call that ended: the line, the node, and the call's local session.
#[tactic(auto, unfolding(world_model::specs::Texts::gone_text))]
pub fn push_gone(out: &mut Bytes, line: u64, node: u8, session: u32) -> Result<(), NoMemory>
    ensures { OnOk result (out.new ≡ out.old ++ gone_text line node session) }
{
    push_number(out, line)?;
    push_word(out, b"gone")?;
    push_count(out, u64::from(node))?;
    push_count(out, u64::from(session))?;
    out.push_slice(b"\n")
}

/// An Ethernet frame that a LAC sends to a host: the line, the node, and its bytes.
#[tactic(auto, unfolding(world_model::specs::Texts::frame_text))]
pub fn push_frame(out: &mut Bytes, line: u64, node: u8, bytes: &[u8]) -> Result<(), NoMemory>
    ensures { OnOk result (out.new ≡ out.old ++ frame_text line node bytes.now) }
{
    push_number(out, line)?;
    push_word(out, b"frame")?;
    push_count(out, u64::from(node))?;
    push_hex(out, bytes)?;
    out.push_slice(b"\n")
}

/// The PADT to the host of a call that ended, where a host had it: the line, the node, and its bytes.
pub fn push_farewell(
    out: &mut Bytes,
    line: u64,
    node: u8,
    padt: &Option<[u8; 20]>,
) -> Result<(), NoMemory>
    ensures { OnOk result (out.new ≡ out.old ++ farewell_text line node padt.now) }
{
    match padt {
        Some(padt) => push_frame(out, line, node, padt),
        None => Ok(()),
    }
}

/// An input that was ignored: the line, the node, and why.
#[tactic(auto, unfolding(world_model::specs::Texts::drop_text))]
pub fn push_drop(out: &mut Bytes, line: u64, node: u8, why: Why) -> Result<(), NoMemory>
    ensures { OnOk result (out.new ≡ out.old ++ drop_text line node why) }
{
    push_number(out, line)?;
    push_word(out, b"drop")?;
    push_count(out, u64::from(node))?;
    push_word(out, why.word())?;
    out.push_slice(b"\n")
}

/// The cause of a refusal: the line, the node, and the cause.
#[tactic(auto, unfolding(world_model::specs::Texts::cause_text))]
pub fn push_cause(out: &mut Bytes, line: u64, node: u8, cause: Cause) -> Result<(), NoMemory>
    ensures { OnOk result (out.new ≡ out.old ++ cause_text line node cause) }
{
    push_number(out, line)?;
    push_word(out, b"cause")?;
    push_count(out, u64::from(node))?;
    push_word(out, cause.word())?;
    out.push_slice(b"\n")
}

/// A node that stopped inside a commit: the line, and the node.
#[tactic(auto, unfolding(world_model::specs::Texts::stopped_text))]
pub fn push_stopped(out: &mut Bytes, line: u64, node: u8) -> Result<(), NoMemory>
    ensures { OnOk result (out.new ≡ out.old ++ stopped_text line node) }
{
    push_number(out, line)?;
    push_word(out, b"stopped")?;
    push_count(out, u64::from(node))?;
    out.push_slice(b"\n")
}

/// A node that is down at the end of a run.
#[tactic(auto, unfolding(world_model::specs::Run::down_text))]
pub fn push_down(out: &mut Bytes, node: u32) -> Result<(), NoMemory>
    ensures { OnOk result (out.new ≡ out.old ++ down_text node) }
{
    out.push_slice(b"end")?;
    push_count(out, u64::from(node))?;
    push_word(out, b"down")?;
    out.push_slice(b"\n")
}

/// Whose tunnel it is, and where it goes: the node, the local id, the peer's node, and the id there.
fn push_tunnel_ids(out: &mut Bytes, node: u32, tunnel: &Control) -> Result<(), NoMemory>
    ensures { OnOk result (out.new ≡ out.old ++ (codes "end" & decimal node & codes "tunnel" & decimal tunnel.now.local & decimal (node_of tunnel.now.peer) & decimal tunnel.now.remote)) }
{
    out.push_slice(b"end")?;
    push_count(out, u64::from(node))?;
    push_word(out, b"tunnel")?;
    push_count(out, u64::from(tunnel.local))?;
    push_count(out, u64::from(node_of(tunnel.peer)))?;
    push_count(out, u64::from(tunnel.remote))
}

/// What a tunnel's control channel does, in ASCII.
fn mode_word(mode: Mode) -> &'static [u8]
    ensures { result.now ≡ mode_word mode }
{
    match mode {
        Mode::Current => b"current",
        Mode::Frozen => b"frozen",
        Mode::Restored => b"restored",
    }
}

/// Whether an end knows of its sessions, after a reset, which of them its peer has, or is asking, in ASCII.
fn query_word(complete: bool) -> &'static [u8]
    ensures { result.now ≡ query_word complete }
{
    if complete { b"complete" } else { b"asking" }
}

/// A tunnel at the end of a run, with the epoch that it is in, whether it is current, frozen or restored, and whether it is complete: of
/// each session that was established at its last reset it is known whether the peer has it.
#[tactic(auto, unfolding(world_model::specs::Run::tunnel_text))]
pub fn push_tunnel(
    out: &mut Bytes,
    node: u32,
    tunnel: &Control,
    epoch: u64,
    mode: Mode,
    complete: bool,
) -> Result<(), NoMemory>
    ensures { OnOk result (out.new ≡ out.old ++ tunnel_text node tunnel.now epoch mode complete) }
{
    push_tunnel_ids(out, node, tunnel)?;
    push_word(out, tunnel.state.word())?;
    push_count(out, epoch)?;
    push_word(out, mode_word(mode))?;
    push_word(out, query_word(complete))?;
    out.push_slice(b"\n")
}

/// A call at the end of a run, with its local session and its birth.
#[tactic(auto, unfolding(world_model::specs::Run::call_text))]
pub fn push_call(
    out: &mut Bytes,
    node: u32,
    tunnel: u32,
    session: u32,
    call: &Call,
    birth: u64,
) -> Result<(), NoMemory>
    ensures { OnOk result (out.new ≡ out.old ++ call_text node tunnel session call.now birth) }
{
    out.push_slice(b"end")?;
    push_count(out, u64::from(node))?;
    push_word(out, b"call")?;
    push_count(out, u64::from(tunnel))?;
    push_count(out, u64::from(session))?;
    push_count(out, u64::from(call.remote))?;
    push_word(out, call.state.word())?;
    push_count(out, birth)?;
    out.push_slice(b"\n")
}

/// A LAC's tunnel and its partner, which agree, with the number of sessions.
#[tactic(auto, unfolding(world_model::specs::Run::agree_text))]
pub fn push_agree(
    out: &mut Bytes,
    node: u32,
    tunnel: &Control,
    partner: &Control,
    count: u64,
) -> Result<(), NoMemory>
    ensures { OnOk result (out.new ≡ out.old ++ agree_text node tunnel.now partner.now count) }
{
    out.push_slice(b"agree")?;
    push_count(out, u64::from(node))?;
    push_count(out, u64::from(tunnel.local))?;
    push_count(out, u64::from(node_of(tunnel.peer)))?;
    push_count(out, u64::from(partner.local))?;
    push_count(out, count)?;
    out.push_slice(b"\n")
}

/// A line that doesn't fit, and why.
#[tactic(auto, unfolding(world_model::specs::Run::unfit_text))]
fn push_unfit(out: &mut Bytes, line: u64, why: Why) -> Result<(), NoMemory>
    ensures { OnOk result (out.new ≡ out.old ++ unfit_text line why) }
{
    push_numbered(out, b"unfit line ", line)?;
    out.push_slice(b": ")?;
    out.push_slice(why.word())?;
    out.push_slice(b"\n")
}

/// A packet that has outlived half of its channel's numbers: the line, the number that it has, and what its tunnel counts.
#[tactic(auto, unfolding(world_model::specs::Run::half_space_text))]
fn push_half_space(out: &mut Bytes, line: u64, number: u64, count: u64) -> Result<(), NoMemory>
    ensures { OnOk result (out.new ≡ out.old ++ half_space_text line number count) }
{
    push_numbered(out, b"half space line ", line)?;
    push_numbered(out, b": number ", number)?;
    push_numbered(out, b", at ", count)?;
    out.push_slice(b"\n")
}

/// A packet that was sent before the last reset of the tunnel that it is for: the line, and the epochs of both.
#[tactic(auto, unfolding(world_model::specs::Run::stale_text))]
fn push_stale(out: &mut Bytes, line: u64, packet_epoch: u64, own_epoch: u64) -> Result<(), NoMemory>
    ensures { OnOk result (out.new ≡ out.old ++ stale_text line packet_epoch own_epoch) }
{
    push_numbered(out, b"stale line ", line)?;
    push_numbered(out, b": packet epoch ", packet_epoch)?;
    push_numbered(out, b", own epoch ", own_epoch)?;
    out.push_slice(b"\n")
}

/// A node's checkpoint that has no room for the records of a step, and how many it has.
#[tactic(auto, unfolding(world_model::specs::Run::store_full_text))]
fn push_store_full(out: &mut Bytes, records: u32) -> Result<(), NoMemory>
    ensures { OnOk result (out.new ≡ out.old ++ store_full_text records) }
{
    push_numbered(out, b"store full: ", u64::from(records))?;
    out.push_slice(b"\n")
}

/// A line that is refused, and why.
#[tactic(auto, unfolding(world_model::specs::Run::refusal_text))]
pub fn push_refusal(out: &mut Bytes, line: u64, refusal: Refusal) -> Result<(), NoMemory>
    ensures { OnOk result (out.new ≡ out.old ++ refusal_text line refusal) }
{
    match refusal {
        Refusal::Unfit { why } => push_unfit(out, line, why),
        Refusal::HalfSpace { number, count } => push_half_space(out, line, number, count),
        Refusal::Stale {
            packet_epoch,
            own_epoch,
        } => push_stale(out, line, packet_epoch, own_epoch),
        Refusal::StoreFull { records } => push_store_full(out, records),
    }
}
