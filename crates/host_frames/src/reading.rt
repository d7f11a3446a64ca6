//! What a frame leads to.

ghost use Rattle.std.specs.Prelude.{◌≡◌, ⊤, IfOk, length, ◌≤◌};
ghost use Rattle.pppoe_discovery.specs.Told.{MayBeTold, IsWithin};
ghost use Rattle.end_names.specs.declared.role.Role.TheVariants as roles;
ghost use Rattle.end_model.specs.Access.{coming, led_to, holder, is_host};
ghost use Rattle.end_model.specs.End.{End};
ghost use Rattle.host_frames.specs.Frames.{came, IsAnswerable};

use end_model::Event;
use end_names::{Role, host_name, mac_of};
use lac_core::LacAccess;
use pppoe_discovery::{Discovered, on_frame};
use std::alloc::Global;
use wire_base::{Bytes, Cause, NoMemory, Why};

/// How many bytes a frame has at most.
const LONGEST: usize = 2048;

/// What a frame leads to.
#[derive(Drop)]
pub enum HostFrame {
    /// Nothing is sent.
    Ignored {
        why: Why,
    },
    /// This frame is to be sent, for a cause where it refuses.
    Answered {
        cause: Option<Cause>,
        frame: Bytes,
    },
    /// It is this event, where the call with this session is live, and its source is the call's host.
    InCall {
        session: u16,
        is_host: bool,
        event: Event,
    },
    /// A host was admitted and wants a call. `before` is the session of the call that the same PADR led to, if one did: where it is live,
    /// the host gets it again.
    Wants {
        asked: Discovered,
        before: Option<u16>,
    },
}

/// The Ethernet address of the host of a call, or of that of one that was kept over a start.
#[tactic(auto, unfolding(end_model::specs::Access::holder))]
fn holder(access: &LacAccess, session: u16) -> Option<[u8; 6]>
    ensures { result ≡ holder access.now session }
{
    match access.hosts.holder(session) {
        Some(mac) => Some(mac),
        None => access.kept.holder(session),
    }
}

/// Whether a session's host has this address.
fn is_host(access: &LacAccess, session: u16, src: &[u8; 6]) -> bool
    ensures { result ≡ is_host access.now src.now session }
{
    match holder(access, session) {
        Some(mac) => mac == *src,
        None => false,
    }
}

/// What was found in a frame.
#[tactic(auto, unfolding(end_model::specs::Access::led_to))]
fn judge(
    alloc: Global,
    access: &LacAccess,
    bytes: &[u8],
    found: Discovered,
) -> Result<HostFrame, NoMemory>
    requires told { MayBeTold found }
    requires within { IsWithin bytes.now found }
    ensures coming { IfOk result (λ frame. (e : End) → led_to access.now e bytes.now found ≡ came access.now e frame) }
    ensures wants { IfOk result IsAnswerable }
{
    match found {
        Discovered::Ignored { why } => Ok(HostFrame::Ignored { why }),
        Discovered::Reply { cause, frame } => Ok(HostFrame::Answered { cause, frame }),
        Discovered::Admit {
            src,
            service,
            uniq,
            relay,
        } => {
            let before = access.hosts.repeat_of(src, &uniq);
            Ok(HostFrame::Wants {
                asked: Discovered::Admit {
                    src,
                    service,
                    uniq,
                    relay,
                },
                before,
            })
        }
        Discovered::Left { src, session } => Ok(HostFrame::InCall {
            session,
            is_host: is_host(access, session, &src),
            event: Event::Hang { session },
        }),
        Discovered::Carried {
            src,
            session,
            start,
            end,
        } => Ok(HostFrame::InCall {
            session,
            is_host: is_host(access, session, &src),
            event: Event::Payload {
                session,
                frame: Bytes::from_slice(alloc, &bytes[start..end])?,
            },
        }),
    }
}

/// What an Ethernet frame, from its destination address on, leads to at the LAC with this number that knows this of its hosts. It is what
/// the LAC does with it, whichever of its calls are live. One of more than 2,048 bytes is ignored.
#[tactic(auto, unfolding(end_model::specs::Access::coming))]
pub fn read_host_frame(
    alloc: Global,
    access: &LacAccess,
    number: u8,
    bytes: &[u8],
) -> Result<HostFrame, NoMemory>
    ensures coming { IfOk result (λ frame. (e : End) → e.role ≡ roles.Lac → e.config.number ≡ number → coming access.now e bytes.now ≡ came access.now e frame) }
    ensures wants { IfOk result IsAnswerable }
{
    if bytes.len() > LONGEST {
        return Ok(HostFrame::Ignored { why: Why::Long });
    }
    let mac = mac_of(number);
    let name = host_name(alloc, Role::Lac, number)?;
    let found = on_frame(alloc, &access.key, &mac, name.as_slice(), bytes)?;
    judge(alloc, access, bytes, found)
}
