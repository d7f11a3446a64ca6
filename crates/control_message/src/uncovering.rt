//! Hidden values that are uncovered by a secret (RFC 2661 section 4.3).

ghost use Rattle.std.specs.Prelude.{◌≡◌, ℕ, ◌≤◌, [], ◌∷◌, ◌++◌, List, Option, Some, None, Ok, length, IfOk, is_some};
ghost use Rattle.std.specs.Option.{option_copied};
ghost use Rattle.std.specs.List.{find};
ghost use Rattle.byteorder.specs.Endian.{big_number};
ghost use Rattle.wire_base.specs.NumberLaws.{AreBytes};
ghost use Rattle.avp_codec.specs.declared.avp.Avp.{Avp};
ghost use Rattle.avp_codec.specs.Reading.{avps_of};
ghost use Rattle.avp_codec.specs.Spelling.{AreAvps, spelling};
ghost use Rattle.control_message.specs.declared.message.Message.{Message};
ghost use Rattle.control_message.specs.declared.message.Read.TheVariants.{Known};
ghost use Rattle.control_message.specs.declared.kind.Kinds.{Kinds};
ghost use Rattle.control_message.specs.Grammar.{IsKnownTo};
ghost use Rattle.control_message.specs.Reading.{message_by};
ghost use Rattle.control_message.specs.Pairs.{pairs_of, pairs_with, plain_pairs_with, IsWrittenWith};
ghost use Rattle.control_message.specs.HiddenRequests.{HiddenRequestsAreRead};
ghost use Rattle.control_message.specs.Uncovering.{may_be_uncovered, uncovered_pair, vector_after, uncovered_all, uncovered, NoneIsHidden, IsUncovered, UncoversBehind, Uncovers, IsVectorBehind};

use crate::attribute::{MESSAGE_TYPE, RANDOM_VECTOR};
use crate::finding::{is_at, is_vector};
use avp_codec::{Avp, AvpRef, Avps, LentAvps};
use std::alloc::Global;
use tunnel_secret::{UnhideError, unhide};
use wire_base::NoMemory;

/// Whether a pair may be uncovered: it is hidden, and neither the type, which never is, nor an attribute 36.
fn may_be_uncovered(avp: &AvpRef<'_>) -> bool
    ensures { result ≡ may_be_uncovered avp.now }
{
    avp.hidden && !(is_at(avp, MESSAGE_TYPE) || is_at(avp, RANDOM_VECTOR))
}

/// What a pair behind a Random Vector is to an end that knows the secret.
#[tactic(auto, unfolding(crate::specs::Uncovering::uncovered_pair))]
fn reveal(alloc: Global, secret: &[u8], vector: &[u8], avp: &AvpRef<'_>) -> Result<Avp, NoMemory>
    ensures exact { IfOk result (λ a. a ≡ uncovered_pair secret.now (Some vector.now) avp.now) }
    ensures found { (before : List Avp) → IsVectorBehind before (Some vector.now) →
        IfOk result (λ a. IsUncovered secret.now before avp.now a) }
{
    if !may_be_uncovered(avp) {
        return avp.copy(alloc);
    }
    match unhide(alloc, avp.attribute, secret, vector, avp.value) {
        Ok(value) => Ok(Avp {
            mandatory: avp.mandatory,
            hidden: false,
            reserved: avp.reserved,
            vendor: avp.vendor,
            attribute: avp.attribute,
            value,
        }),
        Err(UnhideError::BadLength { .. }) => avp.copy(alloc),
        Err(UnhideError::NoMemory) => Err(NoMemory),
    }
}

/// What a pair is to it, behind a Random Vector or not.
#[tactic(auto, unfolding(crate::specs::Uncovering::uncovered_pair))]
fn uncover_pair(
    alloc: Global,
    secret: &[u8],
    vector: Option<&[u8]>,
    avp: &AvpRef<'_>,
) -> Result<Avp, NoMemory>
    ensures exact { IfOk result (λ a. a ≡ uncovered_pair secret.now (option_copied vector.entry) avp.now) }
    ensures found { (before : List Avp) → IsVectorBehind before (option_copied vector.entry) →
        IfOk result (λ a. IsUncovered secret.now before avp.now a) }
{
    match vector {
        None => avp.copy(alloc),
        Some(vector) => reveal(alloc, secret, vector, avp),
    }
}

/// The Random Vector that counts behind a pair.
fn vector_after<'a>(vector: Option<&'a [u8]>, avp: &AvpRef<'a>) -> Option<&'a [u8]>
    ensures { option_copied result ≡ vector_after (option_copied vector.entry) avp.now }
{
    if is_vector(avp) {
        Some(avp.value)
    } else {
        vector
    }
}

/// A copy of the pairs, with what the secret uncovers of them uncovered.
pub(crate) fn copy_uncovered(
    alloc: Global,
    avps: &LentAvps<'_>,
    secret: &[u8],
) -> Result<Avps, NoMemory>
    ensures exact { IfOk result (λ plain. plain ≡ uncovered_all secret.now None avps.now) }
    ensures found { IfOk result (UncoversBehind secret.now [] avps.now) }
{
    let mut plain = Avps::new(alloc);
    let mut vector: Option<&[u8]> = None;
    let mut rest = avps.lend();
    while let Some((avp, behind)) = rest.split_first() {
        let pair = uncover_pair(alloc, secret, vector, &avp)?;
        plain.push(pair)?;
        vector = vector_after(vector, &avp);
        rest = behind;
    }
    Ok(plain)
}

/// Whether a pair is hidden.
pub fn has_hidden(avps: &LentAvps<'_>) -> bool
    ensures { result ≡ is_some (find (λ a. a.hidden) avps.now) }
{
    let mut rest = avps.lend();
    while let Some((avp, behind)) = rest.split_first() {
        if avp.hidden {
            return true;
        }
        rest = behind;
    }
    false
}

/// A copy of a list of pairs with what a secret uncovers of them uncovered (RFC 2661 section 4.3): the value of a hidden
/// pair behind a Random Vector, by the last one before it. Message Type and Random Vector itself are never uncovered, and
/// a value that is none stays hidden.
pub fn uncover(alloc: Global, avps: &LentAvps<'_>, secret: &[u8]) -> Result<Avps, NoMemory>
    // Each pair is uncovered, or stays for a cause.
    ensures found { IfOk result (Uncovers (Some secret.now) avps.now) }
    // For callers: the pairs as a function of the pairs.
    ensures exact { IfOk result (λ plain. plain ≡ uncovered (Some secret.now) avps.now) }
{
    copy_uncovered(alloc, avps, secret)
}

/// A law: pairs of which none is hidden stay as they are.
pub fn leaves_plain_pairs()
    ensures { (k : Option (List ℕ)) (avps : List Avp) → NoneIsHidden avps → uncovered k avps ≡ avps }
{}

/// A law: so do the pairs of a message that is written without a vector.
pub fn plain_messages_stay()
    ensures { (k : Option (List ℕ)) (m : Message) → uncovered k (pairs_of m) ≡ pairs_of m }
{}

/// A law: what was written with a secret and a vector is read again, as the same pairs, then as those with the value in
/// plain, then as the same message, by each reader that knows it.
pub fn reads_what_was_hidden()
    ensures { (known : Kinds) (s v : List ℕ) (m : Message) → IsKnownTo m known → IsWrittenWith (Some s) (Some v) m →
        (avps_of (spelling (pairs_with (Some s) (Some v) m)) ≡ Ok (pairs_with (Some s) (Some v) m))
        × (uncovered (Some s) (pairs_with (Some s) (Some v) m) ≡ plain_pairs_with v m)
        × (message_by known (uncovered (Some s) (pairs_with (Some s) (Some v) m)) ≡ Ok (Known m)) }
{
    avp_codec::reads_what_was_written();
    tunnel_secret::unhides_what_was_hidden();
}

/// A law: what is uncovered has a spelling of no more bytes, and is read again of it.
pub fn spells_what_was_uncovered()
    ensures shorter { (k : Option (List ℕ)) (avps : List Avp) → length (spelling (uncovered k avps)) ≤ length (spelling avps) }
    ensures fits { (k : Option (List ℕ)) (avps : List Avp) → AreAvps avps →
        AreAvps (uncovered k avps) × (avps_of (spelling (uncovered k avps)) ≡ Ok (uncovered k avps)) }
    ensures read { (k : Option (List ℕ)) (body : List ℕ) (avps : List Avp) → AreBytes body → avps_of body ≡ Ok avps →
        avps_of (spelling (uncovered k avps)) ≡ Ok (uncovered k avps) }
    ensures are { (k : Option (List ℕ)) (body : List ℕ) (avps : List Avp) → AreBytes body → avps_of body ≡ Ok avps → AreAvps (uncovered k avps) }
{
    avp_codec::reads_what_was_written();
}

/// A law: a request whose Calling Number is hidden is, to an end with whatever secret or none, the request for that
/// session with some number, or with one that can't be had (RFC 2661 section 4.3).
pub fn hidden_requests_are_read()
    ensures { HiddenRequestsAreRead }
{
    tunnel_secret::unhides_what_was_hidden();
}
