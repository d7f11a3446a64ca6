//! Writing PADO, PADS and PADT.

ghost use Rattle.std.specs.Prelude.{◌≡◌, ◌≤◌, ◌++◌, length, IfOk, OnOk, Some};
ghost use Rattle.pppoe_wire.specs.Spelling.{frame_bytes, spelling};
ghost use Rattle.pppoe_discovery.specs.Asking.{IsShort};
ghost use Rattle.pppoe_discovery.specs.Replies.{echo, echoes, error_kind, pado_tags, pads_tags, refusal_tags, sent, refusal, padt};
ghost use Rattle.pppoe_discovery.specs.Told.{IsAdmission, pads_to};

use crate::code::{PADS, PADT};
use crate::outcome::Discovered;
use crate::tag_type::{
    AC_COOKIE, AC_NAME, AC_SYSTEM_ERROR, GENERIC_ERROR, HOST_UNIQ, RELAY_SESSION_ID, SERVICE_NAME,
    SERVICE_NAME_ERROR,
};
use pppoe_wire::{Pppoe, write_frame, write_tag};
use std::alloc::Global;
use wire_base::{Bytes, Cause, NoMemory};

/// Appends a tag as it came, where it came.
fn write_echo(out: &mut Bytes, kind: u16, value: &Option<Bytes>) -> Result<(), NoMemory>
    requires { IsShort value.now }
    ensures { OnOk result (out.new ≡ out.old ++ spelling (echo kind value.now)) }
{
    match value {
        Some(value) => write_tag(out, kind, value.as_slice()),
        None => Ok(()),
    }
}

/// Appends Host-Uniq and Relay-Session-Id, each where it came.
fn write_echoes(
    out: &mut Bytes,
    uniq: &Option<Bytes>,
    relay: &Option<Bytes>,
) -> Result<(), NoMemory>
    requires uniq { IsShort uniq.now }
    requires relay { IsShort relay.now }
    ensures { OnOk result (out.new ≡ out.old ++ spelling (echoes uniq.now relay.now)) }
{
    write_echo(out, HOST_UNIQ, uniq)?;
    write_echo(out, RELAY_SESSION_ID, relay)
}

/// A discovery frame to a host.
pub fn write_sent(
    alloc: Global,
    mac: &[u8; 6],
    dst: &[u8; 6],
    code: u8,
    session: u16,
    payload: Bytes,
) -> Result<Bytes, NoMemory>
    requires { length payload ≤ 65535 }
    ensures { IfOk result (λ bytes. bytes ≡ frame_bytes (sent mac.now dst.now code session payload)) }
{
    let frame = Pppoe {
        dst: *dst,
        src: *mac,
        session_stage: false,
        code,
        session,
        start: 20,
        end: 20 + payload.len(),
        payload,
    };
    write_frame(alloc, &frame)
}

/// The type of the tag that tells a cause.
fn error_kind(cause: Cause) -> u16
    ensures { result ≡ error_kind cause }
{
    match cause {
        Cause::Service => SERVICE_NAME_ERROR,
        Cause::Cookie => GENERIC_ERROR,
        _ => AC_SYSTEM_ERROR,
    }
}

/// The tags of a PADO (RFC 2516 section 5.2): Service-Name, AC-Name and AC-Cookie, and then Host-Uniq and
/// Relay-Session-Id where they came.
pub fn pado_payload(
    alloc: Global,
    service: &[u8],
    name: &[u8],
    cookie: &[u8; 16],
    uniq: &Option<Bytes>,
    relay: &Option<Bytes>,
) -> Result<Bytes, NoMemory>
    requires service { length service.now ≤ 2048 }
    requires name { length name.now ≤ 255 }
    requires uniq { IsShort uniq.now }
    requires relay { IsShort relay.now }
    ensures { IfOk result (λ payload. payload ≡ spelling (pado_tags service.now name.now cookie.now uniq.now relay.now)) }
{
    let mut payload = Bytes::new(alloc);
    write_tag(&mut payload, SERVICE_NAME, service)?;
    write_tag(&mut payload, AC_NAME, name)?;
    write_tag(&mut payload, AC_COOKIE, cookie)?;
    write_echoes(&mut payload, uniq, relay)?;
    Ok(payload)
}

/// The tags of a PADS that opens a session (RFC 2516 section 5.4).
fn pads_payload(
    alloc: Global,
    service: &[u8],
    uniq: &Option<Bytes>,
    relay: &Option<Bytes>,
) -> Result<Bytes, NoMemory>
    requires service { length service.now ≤ 2048 }
    requires uniq { IsShort uniq.now }
    requires relay { IsShort relay.now }
    ensures { IfOk result (λ payload. payload ≡ spelling (pads_tags service.now uniq.now relay.now)) }
{
    let mut payload = Bytes::new(alloc);
    write_tag(&mut payload, SERVICE_NAME, service)?;
    write_echoes(&mut payload, uniq, relay)?;
    Ok(payload)
}

/// The tags of a PADS that refuses.
fn refusal_payload(
    alloc: Global,
    cause: Cause,
    uniq: &Option<Bytes>,
    relay: &Option<Bytes>,
) -> Result<Bytes, NoMemory>
    requires uniq { IsShort uniq.now }
    requires relay { IsShort relay.now }
    ensures { IfOk result (λ payload. payload ≡ spelling (refusal_tags cause uniq.now relay.now)) }
{
    let mut payload = Bytes::new(alloc);
    write_tag(&mut payload, error_kind(cause), cause.word())?;
    write_echoes(&mut payload, uniq, relay)?;
    Ok(payload)
}

/// The PADS that refuses a PADR.
pub fn write_refusal(
    alloc: Global,
    mac: &[u8; 6],
    dst: &[u8; 6],
    cause: Cause,
    uniq: &Option<Bytes>,
    relay: &Option<Bytes>,
) -> Result<Bytes, NoMemory>
    requires uniq { IsShort uniq.now }
    requires relay { IsShort relay.now }
    ensures { IfOk result (λ bytes. bytes ≡ frame_bytes (refusal mac.now dst.now cause uniq.now relay.now)) }
{
    let payload = refusal_payload(alloc, cause, uniq, relay)?;
    write_sent(alloc, mac, dst, PADS, 0, payload)
}

/// The PADS that answers an admitted PADR (RFC 2516 section 5.4), as a whole Ethernet frame without padding: with the session
/// that the host gets, its Service-Name, its Host-Uniq and its Relay-Session-Id; or, with a cause, a refusal. A refusal has
/// the SESSION_ID 0, whatever session is given, and first of all an error: Service-Name-Error for a service, Generic-Error for
/// a cookie, and AC-System-Error for any other cause, each with the cause's word in ASCII.
pub fn write_pads(
    alloc: Global,
    mac: &[u8; 6],
    asked: &Discovered,
    session: u16,
    cause: Option<Cause>,
) -> Result<Bytes, NoMemory>
    requires { IsAdmission asked.now }
    ensures { IfOk result (λ bytes. bytes ≡ pads_to mac.now asked.now session cause) }
{
    let Discovered::Admit {
        src,
        service,
        uniq,
        relay,
    } = asked
    else {
        unreachable!()
    };
    if let Some(cause) = cause {
        return write_refusal(alloc, mac, src, cause, uniq, relay);
    }
    let payload = pads_payload(alloc, service.as_slice(), uniq, relay)?;
    write_sent(alloc, mac, src, PADS, session, payload)
}

/// The PADT that ends a host's session (RFC 2516 section 5.5), a whole Ethernet frame without tags. It takes no memory.
pub fn padt_frame(mac: &[u8; 6], dst: &[u8; 6], session: u16) -> [u8; 20]
    ensures { result ≡ frame_bytes (padt mac.now dst.now session) }
{
    let [d0, d1, d2, d3, d4, d5] = *dst;
    let [s0, s1, s2, s3, s4, s5] = *mac;
    let [high, low] = session.to_be_bytes();
    [
        d0, d1, d2, d3, d4, d5, s0, s1, s2, s3, s4, s5, 0x88, 0x63, 0x11, PADT, high, low, 0, 0,
    ]
}
