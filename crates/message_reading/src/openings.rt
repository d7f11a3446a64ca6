//! What stands against an SCCRQ or an SCCRP, but for the state of its tunnel.

ghost use Rattle.std.specs.Prelude.{◌≡◌, ◌==◌};
ghost use Rattle.end_model.specs.Reasons.{other_version, no_recovery, no_secret};
ghost use Rattle.end_model.specs.Secrets.{response_by, lacks_secret, is_wrong};
ghost use Rattle.end_model.specs.Messages.{against, is_acceptable, event_by, opening_reason, connected_event, connected_reason};

use crate::reasons::{Reason, out_of_order};
use control_message::Opening;
use tunnel_fsm::TunnelEvent;
use tunnel_secret::{check_response, response};
use wire_base::{Bytes, Cause};

/// The one Protocol Version that there is: version 1, revision 0 (RFC 2661 section 4.4.3).
const VERSION: u16 = 0x0100;

/// Whether the version is 1.0.
pub fn is_of_version(opening: &Opening) -> bool
    ensures { result ≡ (opening.now.version == 256) }
{
    opening.version == VERSION
}

/// The version isn't 1.0.
pub fn other_version() -> Reason
    ensures { result ≡ other_version }
{
    Reason {
        cause: Cause::Version,
        code: 5,
        error: None,
    }
}

/// A tunnel is to be recovered that can't be, or is asked for where no recovery can be.
pub fn no_recovery() -> Reason
    ensures { result ≡ no_recovery }
{
    Reason {
        cause: Cause::Recover,
        code: 2,
        error: Some(1),
    }
}

/// A challenge comes to an end that has no secret, or what an end asked isn't answered rightly (RFC 2661 section 5.1.1).
pub fn no_secret() -> Reason
    ensures { result ≡ no_secret }
{
    Reason {
        cause: Cause::Secret,
        code: 4,
        error: None,
    }
}

/// The types of the messages that carry a response, which are digested with it (RFC 2661 section 4.4.3).
const SCCRP: u8 = 2;

const SCCCN: u8 = 3;

/// Whether an end is asked what only one who knows the secret can answer, and has none.
pub fn lacks_secret(secret: &Option<Bytes>, challenge: &Option<Bytes>) -> bool
    ensures { result ≡ lacks_secret secret.now challenge.now }
{
    challenge.is_some() && secret.is_none()
}

/// What an end answers in a message of this type, where it was asked and has a secret.
fn response_by(kind: u8, secret: &Option<Bytes>, challenge: &Option<Bytes>) -> Option<[u8; 16]>
    ensures { result ≡ response_by kind secret.now challenge.now }
{
    match (secret, challenge) {
        (Some(secret), Some(challenge)) => {
            Some(response(kind, secret.as_slice(), challenge.as_slice()))
        }
        _ => None,
    }
}

/// What an end answers in its SCCRP.
pub fn reply_by(secret: &Option<Bytes>, challenge: &Option<Bytes>) -> Option<[u8; 16]>
    ensures { result ≡ response_by 2 secret.now challenge.now }
{
    response_by(SCCRP, secret, challenge)
}

/// What an end answers in its SCCCN.
pub fn connection_by(secret: &Option<Bytes>, challenge: &Option<Bytes>) -> Option<[u8; 16]>
    ensures { result ≡ response_by 3 secret.now challenge.now }
{
    response_by(SCCCN, secret, challenge)
}

/// Whether an end that has a secret asked this, and is answered wrongly or not at all.
fn is_wrong(
    kind: u8,
    secret: &Option<Bytes>,
    asked: &Option<[u8; 16]>,
    given: &Option<[u8; 16]>,
) -> bool
    ensures { result ≡ is_wrong kind secret.now asked.now given.now }
{
    match (secret, asked) {
        (Some(secret), Some(asked)) => match given {
            None => true,
            Some(given) => !check_response(kind, secret.as_slice(), asked, given),
        },
        _ => false,
    }
}

/// What stands against an SCCRQ or an SCCRP at an end with this secret, which asked this of its peer; the first that counts.
pub fn against(
    secret: &Option<Bytes>,
    asked: &Option<[u8; 16]>,
    opening: &Opening,
) -> Option<Reason>
    ensures { result ≡ against secret.now asked.now opening.now }
{
    if !is_of_version(opening) {
        Some(other_version())
    } else if opening.recovery.is_some() {
        Some(no_recovery())
    } else if lacks_secret(secret, &opening.challenge)
        || is_wrong(SCCRP, secret, asked, &opening.response)
    {
        Some(no_secret())
    } else {
        None
    }
}

/// The event of the tunnel's table that an SCCRQ or an SCCRP is: it is acceptable where nothing stands against it.
pub fn event_by(
    acceptable: TunnelEvent,
    other: TunnelEvent,
    secret: &Option<Bytes>,
    asked: &Option<[u8; 16]>,
    opening: &Opening,
) -> TunnelEvent
    ensures { result ≡ event_by acceptable other secret.now asked.now opening.now }
{
    match against(secret, asked, opening) {
        None => acceptable,
        Some(_) => other,
    }
}

/// Why an SCCRQ or an SCCRP closes a tunnel, where its table's row says so.
pub fn opening_reason(secret: &Option<Bytes>, asked: &Option<[u8; 16]>, opening: &Opening) -> Reason
    ensures { result ≡ opening_reason secret.now asked.now opening.now }
{
    match against(secret, asked, opening) {
        None => out_of_order(),
        Some(reason) => reason,
    }
}

/// The event of the tunnel's table that an SCCCN with this response is, at an end that asked this.
pub fn connected_event(
    secret: &Option<Bytes>,
    asked: &Option<[u8; 16]>,
    given: &Option<[u8; 16]>,
) -> TunnelEvent
    ensures { result ≡ connected_event secret.now asked.now given.now }
{
    if is_wrong(SCCCN, secret, asked, given) {
        TunnelEvent::ScccnNotAcc
    } else {
        TunnelEvent::ScccnAcc
    }
}

/// Why it closes a tunnel, where its table's row says so.
pub fn connected_reason(
    secret: &Option<Bytes>,
    asked: &Option<[u8; 16]>,
    given: &Option<[u8; 16]>,
) -> Reason
    ensures { result ≡ connected_reason secret.now asked.now given.now }
{
    if is_wrong(SCCCN, secret, asked, given) {
        no_secret()
    } else {
        out_of_order()
    }
}
