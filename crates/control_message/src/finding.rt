//! Which pair is one of an attribute, and which are recognised (RFC 2661 section 4.1).

ghost use Rattle.std.specs.Prelude.{◌≡◌, ◌↔◌, find, is_some, IsNone, IfSome};
ghost use Rattle.control_message.specs.Grammar.{HasPlainShort, HasNoPlainShort};
ghost use Rattle.control_message.specs.Reading.{is_listed, is_recognised, is_at, is_draw, is_vector, first, first_draw, number_in, is_plain_short, plain_short};

use crate::attribute::{
    ASSIGNED_SESSION, ASSIGNED_TUNNEL, DRAW_NUMBER, DRAW_VENDOR, RANDOM_VECTOR, RECOVERY,
};
use crate::message::MessageError;
use avp_codec::{AvpRef, LentAvps};
use wire_base::take_u16;

/// Whether an attribute of a vendor is known.
pub fn is_listed(vendor: u16, attribute: u16) -> bool
    ensures { result ≡ is_listed vendor attribute }
{
    match vendor {
        0 => attribute <= 19
            || 21 <= attribute && attribute <= 39
            || 76 <= attribute && attribute <= 79,
        _ => vendor == DRAW_VENDOR && attribute == DRAW_NUMBER,
    }
}

/// Whether a pair is recognised. One with a reserved bit set isn't (RFC 2661 section 4.1).
pub fn is_recognised(avp: &AvpRef<'_>) -> bool
    ensures { result ≡ is_recognised avp.now }
{
    avp.reserved == 0 && is_listed(avp.vendor, avp.attribute)
}

/// Whether a pair is one of an attribute of the IETF.
pub fn is_at(avp: &AvpRef<'_>, attribute: u16) -> bool
    ensures { result ≡ is_at attribute avp.now }
{
    avp.vendor == 0 && avp.attribute == attribute && avp.reserved == 0
}

/// Whether a pair is this project's Draw Number.
pub fn is_draw(avp: &AvpRef<'_>) -> bool
    ensures { result ≡ is_draw avp.now }
{
    avp.vendor == DRAW_VENDOR && avp.attribute == DRAW_NUMBER && avp.reserved == 0
}

/// Whether a pair is a Random Vector, which is never hidden (RFC 2661 section 4.3).
pub fn is_vector(avp: &AvpRef<'_>) -> bool
    ensures { result ≡ is_vector avp.now }
{
    is_at(avp, RANDOM_VECTOR) && !avp.hidden
}

/// The first pair of an attribute.
pub fn find_avp<'a>(avps: &LentAvps<'a>, attribute: u16) -> Option<AvpRef<'a>>
    ensures { result ≡ first attribute avps.now }
{
    let mut rest = avps.lend();
    while let Some((avp, behind)) = rest.split_first() {
        if is_at(&avp, attribute) {
            return Some(avp);
        }
        rest = behind;
    }
    None
}

/// The first Draw Number.
pub fn find_draw<'a>(avps: &LentAvps<'a>) -> Option<AvpRef<'a>>
    ensures { result ≡ first_draw avps.now }
{
    let mut rest = avps.lend();
    while let Some((avp, behind)) = rest.split_first() {
        if is_draw(&avp) {
            return Some(avp);
        }
        rest = behind;
    }
    None
}

/// Whether a pair of an attribute is there.
pub fn has_avp(avps: &LentAvps<'_>, attribute: u16) -> bool
    ensures { result ≡ is_some (first attribute avps.now) }
{
    find_avp(avps, attribute).is_some()
}

/// Whether a Tunnel Recovery is there, by which an SCCRQ asks for the recovery of a tunnel (RFC 4951 section 5.2), whatever it says.
pub fn has_recovery(avps: &LentAvps<'_>) -> bool
    ensures { result ≡ is_some (first RECOVERY avps.now) }
{
    has_avp(avps, RECOVERY)
}

/// The number that a value of two bytes is.
pub fn u16_in(value: &[u8], attribute: u16) -> Result<u16, MessageError>
    ensures { result ≡ number_in 2 attribute value.now }
{
    match take_u16(value, 0) {
        Ok(number) if value.len() == 2 => Ok(number),
        _ => Err(MessageError::BadValue { attribute }),
    }
}

/// Whether a pair is a plain one of an attribute, with two bytes.
fn is_plain_short(avp: &AvpRef<'_>, attribute: u16) -> bool
    ensures { result ≡ is_plain_short attribute avp.now }
{
    is_at(avp, attribute) && !avp.hidden && avp.value.len() == 2
}

/// The first plain pair of an attribute with two bytes.
fn find_plain_short<'a>(avps: &LentAvps<'a>, attribute: u16) -> Option<AvpRef<'a>>
    ensures { result ≡ find (λ a. is_plain_short attribute a) avps.now }
{
    let mut rest = avps.lend();
    while let Some((avp, behind)) = rest.split_first() {
        if is_plain_short(&avp, attribute) {
            return Some(avp);
        }
        rest = behind;
    }
    None
}

/// The number of that pair.
fn plain_short(avps: &LentAvps<'_>, attribute: u16) -> Option<u16>
    ensures { result ≡ plain_short attribute avps.now }
{
    match find_plain_short(avps, attribute) {
        None => None,
        Some(avp) => u16_in(avp.value, attribute).ok(),
    }
}

/// The number of the first Assigned Tunnel ID that is recognised, plain and of two bytes (RFC 2661 section 4.4.3),
/// whatever else the pairs say: a message that is refused is answered to it.
pub fn assigned_tunnel(avps: &LentAvps<'_>) -> Option<u16>
    ensures found { IfSome result (λ x. HasPlainShort ASSIGNED_TUNNEL x avps.now) }
    ensures none { IsNone result ↔ HasNoPlainShort ASSIGNED_TUNNEL avps.now }
    // For callers: the answer as a function of the pairs.
    ensures exact { result ≡ plain_short ASSIGNED_TUNNEL avps.now }
{
    plain_short(avps, ASSIGNED_TUNNEL)
}

/// The number of the first Assigned Session ID that is recognised, plain and of two bytes (RFC 2661 section 4.4.4),
/// whatever else the pairs say: a call that is refused is refused to it.
pub fn assigned_session(avps: &LentAvps<'_>) -> Option<u16>
    ensures found { IfSome result (λ x. HasPlainShort ASSIGNED_SESSION x avps.now) }
    ensures none { IsNone result ↔ HasNoPlainShort ASSIGNED_SESSION avps.now }
    // For callers: the answer as a function of the pairs.
    ensures exact { result ≡ plain_short ASSIGNED_SESSION avps.now }
{
    plain_short(avps, ASSIGNED_SESSION)
}
