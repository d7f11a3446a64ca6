//! What becomes of an event that no tunnel takes.

ghost use Rattle.std.specs.Prelude.{◌≡◌, IfOk};
ghost use Rattle.l2tp_header.specs.Reading.{header_of};
ghost use Rattle.end_model.specs.Reading.{message_in, tunnel_fault_in};
ghost use Rattle.end_model.specs.Secrets.{uncovered_event};
ghost use Rattle.event_routing.specs.Answers.{gives, declines, against_opening_in, against_said_in, opens_or_declines_in, recovers_by_in, recovers_in, answer_message, answer_datagram, one_more_in, rings_in, only_in, answer_in};

use crate::addressing::addressed;
use crate::events::plain_event;
use control_message::{Message, Opening};
use end_model::{Addressee, Config, ControlOrigin, Declined, Event, Move, Origin, Out, Role};
use id_source::Ids;
use l2tp_datagram::{Body, Datagram};
use l2tp_header::Header;
use message_reading::{
    Reason, Said, decline_bytes, fault_reason, is_of_version, lacks_secret, next_of_peer, no_id,
    no_recovery, no_secret, no_tunnel, other_version, out_of_order, read_body,
};
use session_looks::header_why;
use std::alloc::Global;
use tunnel_listing::{Directory, Wanted};
use wire_base::{Cause, NoMemory, Sequence, Why};

/// What is given to the outside, and what was done.
#[derive(Drop)]
pub struct Given {
    pub outputs: Sequence<Out>,
    pub moves: Sequence<Move>,
}

/// What becomes of an event that no tunnel takes.
#[derive(Drop)]
pub enum Answer {
    /// It is the first of a new tunnel to this peer.
    Opens { peer: u32 },
    /// This is given, and no tunnel is made.
    Gives { given: Given },
}

/// One output is given, and nothing is done.
pub fn only(alloc: Global, out: Out) -> Result<Given, NoMemory>
    ensures { IfOk result (λ g. g ≡ gives out) }
{
    let mut outputs = Sequence::new(alloc);
    outputs.push(out)?;
    Ok(Given {
        outputs,
        moves: Sequence::new(alloc),
    })
}

/// It is ignored.
fn drops(alloc: Global, why: Why) -> Result<Answer, NoMemory>
    ensures { IfOk result (λ a. a ≡ Answer.Gives (gives (Out.Drop why))) }
{
    let given = only(alloc, Out::Drop { why })?;
    Ok(Answer::Gives { given })
}

/// It is refused.
fn tells(alloc: Global, cause: Cause) -> Result<Answer, NoMemory>
    ensures { IfOk result (λ a. a ≡ Answer.Gives (gives (Out.Cause cause))) }
{
    let given = only(alloc, Out::Cause { cause })?;
    Ok(Answer::Gives { given })
}

/// An opening is answered by a StopCCN of no tunnel, to the tunnel id that it told.
pub fn declines(
    alloc: Global,
    peer: u32,
    remote: u16,
    nr: u16,
    reason: &Reason,
) -> Result<Given, NoMemory>
    ensures { IfOk result (λ g. g ≡ declines peer remote nr reason.now) }
{
    let bytes = decline_bytes(alloc, remote, nr, reason)?;
    let mut outputs = Sequence::new(alloc);
    outputs.push(Out::Cause {
        cause: reason.cause,
    })?;
    outputs.push(Out::Send {
        peer,
        bytes,
        origin: Origin::Control(ControlOrigin {
            tunnel: 0,
            ns: 0,
            nr: u64::from(nr),
            empty: false,
        }),
    })?;
    let mut moves = Sequence::new(alloc);
    moves.push(Move::Declined(Declined {
        peer,
        remote,
        nr,
        result: reason.code,
        error: reason.error,
    }))?;
    Ok(Given { outputs, moves })
}

/// What stands against an SCCRQ that would open a tunnel, the first that counts.
#[tactic(auto, unfolding(crate::specs::Answers::against_opening_in))]
fn against_opening(
    directory: &Directory,
    config: &Config,
    ids: Ids,
    opening: &Opening,
) -> Option<Reason>
    ensures { result ≡ against_opening_in directory.now config.now ids opening.now }
{
    if !is_of_version(opening) {
        return Some(other_version());
    }
    if directory.is_full() {
        return Some(no_tunnel());
    }
    if lacks_secret(&config.secret, &opening.challenge) {
        return Some(no_secret());
    }
    let mut ids = ids;
    match ids.take() {
        Ok(_) => None,
        Err(_) => Some(no_id()),
    }
}

/// What stands against what a message says that would open a tunnel.
fn against_said(directory: &Directory, config: &Config, ids: Ids, said: &Said) -> Option<Reason>
    ensures { result ≡ against_said_in directory.now config.now ids said.now.closing said.now.message }
{
    match &said.message {
        Ok(Message::Sccrq(opening)) => against_opening(directory, config, ids, opening),
        Ok(_) => None,
        Err(_) => match &said.closing {
            None => None,
            Some(fault) => Some(fault_reason(fault.cause)),
        },
    }
}

/// An SCCRQ opens a tunnel, or is declined where something stands against it.
fn open_or_decline(
    directory: &Directory,
    config: &Config,
    ids: Ids,
    peer: u32,
    remote: u16,
    nr: u16,
    body: &Body<'_>,
) -> Result<Answer, NoMemory>
    ensures { IfOk result (λ a. a ≡ opens_or_declines_in peer remote nr (against_said_in directory.now config.now ids (tunnel_fault_in body.now) (message_in body.now))) }
{
    let said = read_body(directory.alloc(), body)?;
    match against_said(directory, config, ids, &said) {
        None => Ok(Answer::Opens { peer }),
        Some(reason) => {
            let given = declines(directory.alloc(), peer, remote, nr, &reason)?;
            Ok(Answer::Gives { given })
        }
    }
}

/// An SCCRQ that asks for the recovery of a tunnel that isn't there.
fn decline_recovery(alloc: Global, peer: u32, nr: u16, opening: &Opening) -> Result<Given, NoMemory>
    ensures { IfOk result (λ g. g ≡ recovers_by_in peer nr opening.now opening.now.recovery) }
{
    if opening.recovery.is_some() && !is_of_version(opening) {
        return declines(alloc, peer, opening.tunnel, nr, &other_version());
    }
    declines(alloc, peer, opening.tunnel, nr, &no_recovery())
}

fn recovers(alloc: Global, peer: u32, nr: u16, body: &Body<'_>) -> Result<Given, NoMemory>
    ensures { IfOk result (λ g. g ≡ recovers_in peer nr (message_in body.now)) }
{
    let said = read_body(alloc, body)?;
    match &said.message {
        Ok(Message::Sccrq(opening)) => decline_recovery(alloc, peer, nr, opening),
        _ => only(alloc, Out::Drop { why: Why::Tunnel }),
    }
}

/// What becomes of a control message that is for this addressee.
#[tactic(auto, unfolding(crate::specs::Answers::answer_message))]
fn for_addressee(
    directory: &Directory,
    config: &Config,
    ids: Ids,
    peer: u32,
    header: &Header,
    body: &Body<'_>,
    to: Addressee,
) -> Result<Answer, NoMemory>
    ensures { IfOk result (λ a. a ≡ answer_message directory.now config.now ids peer header.now body.now to) }
{
    let alloc = directory.alloc();
    let nr = next_of_peer(header);
    match to {
        Addressee::Opens { remote } => {
            open_or_decline(directory, config, ids, peer, remote, nr, body)
        }
        Addressee::Answers { remote } => {
            let given = declines(alloc, peer, remote, nr, &out_of_order())?;
            Ok(Answer::Gives { given })
        }
        Addressee::Recovers { .. } => {
            let given = recovers(alloc, peer, nr, body)?;
            Ok(Answer::Gives { given })
        }
        Addressee::Nobody { why } => drops(alloc, why),
        Addressee::Stops { .. } | Addressee::Main { .. } | Addressee::Recovery { .. } => {
            drops(alloc, Why::Tunnel)
        }
    }
}

/// What becomes of a datagram. A data message is none of a turn's: its session isn't looked at.
#[tactic(auto, unfolding(crate::specs::Answers::answer_datagram))]
fn for_datagram(
    directory: &Directory,
    config: &Config,
    ids: Ids,
    peer: u32,
    datagram: &Datagram,
) -> Result<Answer, NoMemory>
    ensures { IfOk result (λ a. a ≡ answer_datagram directory.now config.now ids peer datagram.now (header_of datagram.now)) }
{
    match datagram.header() {
        Err(error) => drops(directory.alloc(), header_why(error)),
        Ok(header) => {
            if !header.control {
                return drops(directory.alloc(), Why::Session);
            }
            let body = datagram.body(&header);
            let to = addressed(directory, peer, &header, &body)?;
            for_addressee(directory, config, ids, peer, &header, &body, to)
        }
    }
}

/// A new tunnel to the LNS, where there may be one more.
fn one_more(directory: &Directory) -> Result<Answer, NoMemory>
    ensures { IfOk result (λ a. a ≡ one_more_in directory.now) }
{
    if directory.is_full() {
        return tells(directory.alloc(), Cause::Tunnels);
    }
    Ok(Answer::Opens {
        peer: directory.lns(),
    })
}

/// A ring goes over a new tunnel to the LNS, unless one is recovered.
#[tactic(auto, unfolding(crate::specs::Answers::rings_in))]
fn rings(directory: &Directory) -> Result<Answer, NoMemory>
    ensures { IfOk result (λ a. a ≡ rings_in directory.now) }
{
    let recovering = directory.least(Wanted::Recovering {
        peer: directory.lns(),
    });
    if recovering.is_some() {
        return tells(directory.alloc(), Cause::Recovering);
    }
    one_more(directory)
}

/// An event that only one kind of end takes is ignored by the other kind; so is one of a call, where no tunnel takes it.
fn drops_call(directory: &Directory, role: Role) -> Result<Answer, NoMemory>
    ensures { IfOk result (λ a. a ≡ only_in role directory.now.role (Answer.Gives (gives (Out.Drop Why.Call)))) }
{
    match (directory.role(), role) {
        (Role::Lac, Role::Lac) | (Role::Lns, Role::Lns) => drops(directory.alloc(), Why::Call),
        (Role::Lac, Role::Lns) | (Role::Lns, Role::Lac) => drops(directory.alloc(), Why::Node),
    }
}

fn rings_at_lac(directory: &Directory) -> Result<Answer, NoMemory>
    ensures { IfOk result (λ a. a ≡ only_in Role.Lac directory.now.role (rings_in directory.now)) }
{
    match directory.role() {
        Role::Lac => rings(directory),
        Role::Lns => drops(directory.alloc(), Why::Node),
    }
}

fn opens_at_lac(directory: &Directory) -> Result<Answer, NoMemory>
    ensures { IfOk result (λ a. a ≡ only_in Role.Lac directory.now.role (one_more_in directory.now)) }
{
    match directory.role() {
        Role::Lac => one_more(directory),
        Role::Lns => drops(directory.alloc(), Why::Node),
    }
}

/// What becomes of an event, as the end reads it, that no tunnel takes.
#[tactic(auto, unfolding(crate::specs::Answers::answer_in))]
fn answer_plain(
    directory: &Directory,
    config: &Config,
    ids: Ids,
    event: &Event,
) -> Result<Answer, NoMemory>
    ensures { IfOk result (λ a. a ≡ answer_in directory.now config.now ids event.now) }
{
    let alloc = directory.alloc();
    match event {
        Event::Datagram { peer, datagram } => for_datagram(directory, config, ids, *peer, datagram),
        Event::Ring { .. } | Event::Admitted { .. } => rings_at_lac(directory),
        Event::OpenTunnel => opens_at_lac(directory),
        Event::Payload { .. } | Event::Hang { .. } => drops_call(directory, Role::Lac),
        Event::Lower { .. } | Event::Lcp { .. } => drops_call(directory, Role::Lns),
        Event::DropCall { .. } => drops(alloc, Why::Call),
        Event::CloseTunnel { .. } => drops(alloc, Why::Tunnel),
        Event::Frame { .. } => drops(alloc, Why::Node),
        Event::Tick => Ok(Answer::Gives {
            given: Given {
                outputs: Sequence::new(alloc),
                moves: Sequence::new(alloc),
            },
        }),
    }
}

/// What becomes of an event that no tunnel takes, as the end of this secret reads it: `ids` is where its next tunnel draws its id from.
pub fn answer_event(
    directory: &Directory,
    config: &Config,
    ids: Ids,
    event: &Event,
) -> Result<Answer, NoMemory>
    ensures { IfOk result (λ a. a ≡ answer_in directory.now config.now ids (uncovered_event config.now.secret event.now)) }
{
    match plain_event(directory.alloc(), config, event)? {
        None => answer_plain(directory, config, ids, event),
        Some(plain) => answer_plain(directory, config, ids, &plain),
    }
}
