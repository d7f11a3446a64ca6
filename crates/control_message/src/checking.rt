//! The first fault along a list of pairs.

ghost use Rattle.std.specs.Prelude.{◌≡◌, ◌<◌, ◌&&◌, not, ◌++◌, [], ◌∷◌, List, true, is_some, slice_set};
ghost use Rattle.avp_codec.specs.declared.avp.Avp.{Avp};
ghost use Rattle.control_message.specs.Reading.{is_recognised, counts_once, first, first_draw, has_vector, checked_value, checked_use, checked_draw, checked, checked_all};
ghost use Rattle.control_message.specs.Walk.{HasSeen};
ghost use Rattle.control_message.specs.Table.{shape_of, uses_draw};

use crate::attribute::SESSION_STATE;
use crate::finding::{is_at, is_draw, is_recognised, is_vector};
use crate::kind::{Kind, Shape};
use crate::message::MessageError;
use avp_codec::{AvpRef, LentAvps};

/// The attributes that messages use are below this.
const ATTRIBUTES: usize = 80;

/// What was seen of the pairs that the walk passed, so that no pair is looked at twice.
#[derive(Drop)]
struct Seen {
    /// Whether an attribute of the IETF was there, for those below 80.
    attributes: [bool; ATTRIBUTES],
    /// Whether a Draw Number was there.
    draw: bool,
    /// Whether a Random Vector was there.
    vector: bool,
}

impl Seen {
    /// What was seen of no pairs.
    fn new() -> Seen
        ensures { HasSeen result [] }
    {
        Seen {
            attributes: [false; ATTRIBUTES],
            draw: false,
            vector: false,
        }
    }

    /// Whether an attribute below 80 was seen.
    fn has(&self, attribute: u16) -> bool
        ensures { (before : List Avp) → HasSeen self.now before → attribute < 80 → result ≡ is_some (first attribute before) }
    {
        self.attributes
            .get(usize::from(attribute))
            .copied()
            .unwrap_or(false)
    }

    /// Whether a pair of an attribute below 80 is passed over, as one that was seen and of which only the first pair counts.
    fn passes_over(&self, attribute: u16) -> bool
        ensures { (before : List Avp) → HasSeen self.now before → attribute < 80 →
            result ≡ (counts_once attribute && is_some (first attribute before)) }
    {
        attribute != SESSION_STATE && self.has(attribute)
    }

    /// Marks an attribute as seen, where it is below 80.
    fn mark(&mut self, attribute: u16)
        ensures { self.new ≡ record self.old { attributes = slice_set self.old.attributes attribute true } }
    {
        let at = usize::from(attribute);
        if at < ATTRIBUTES {
            self.attributes[at] = true;
        }
    }

    /// Adds a pair.
    fn add(&mut self, avp: &AvpRef<'_>)
        ensures { (before : List Avp) → HasSeen self.old before → HasSeen self.new (before ++ avp.now ∷ []) }
    {
        if is_at(avp, avp.attribute) {
            self.mark(avp.attribute);
        }
        self.draw |= is_draw(avp);
        self.vector |= is_vector(avp);
    }
}

/// A value that the message uses, where a Random Vector stands before it or not.
fn check_value(shape: Shape, vector: bool, avp: &AvpRef<'_>) -> Result<(), MessageError>
    ensures { result ≡ checked_value shape vector avp.now }
{
    let attribute = avp.attribute;
    if avp.hidden {
        return Err(if vector {
            MessageError::BadValue { attribute }
        } else {
            MessageError::HiddenWithoutVector { attribute }
        });
    }
    if shape.fits(avp.value) {
        Ok(())
    } else {
        Err(MessageError::BadValue { attribute })
    }
}

/// Whether a pair had to be understood, and isn't recognised.
fn is_misunderstood(avp: &AvpRef<'_>) -> bool
    ensures { result ≡ not (is_recognised avp.now) && avp.now.mandatory }
{
    !is_recognised(avp) && avp.mandatory
}

/// The fault of a pair of an attribute of the IETF behind others. Only the first pair of an attribute counts, but each
/// Failover Session State does.
fn check_use(kind: Kind, seen: &Seen, avp: &AvpRef<'_>) -> Result<(), MessageError>
    ensures { (before : List Avp) → HasSeen seen.now before → result ≡ checked_use (shape_of kind avp.now.attribute) before avp.now }
{
    match kind.shape(avp.attribute) {
        None => Ok(()),
        Some(_) if seen.passes_over(avp.attribute) => Ok(()),
        Some(shape) => check_value(shape, seen.vector, avp),
    }
}

/// The fault of a Draw Number behind others. Only the first one counts.
fn check_draw(kind: Kind, seen: &Seen, avp: &AvpRef<'_>) -> Result<(), MessageError>
    ensures { (before : List Avp) → HasSeen seen.now before → result ≡ checked_draw (uses_draw kind) before avp.now }
{
    if !kind.uses_draw() || seen.draw {
        return Ok(());
    }
    check_value(Shape::Long, seen.vector, avp)
}

/// The fault of a pair behind others, if it has one.
#[tactic(auto, unfolding(crate::specs::Reading::checked))]
fn check_avp(kind: Kind, seen: &Seen, avp: &AvpRef<'_>) -> Result<(), MessageError>
    ensures { (before : List Avp) → HasSeen seen.now before → result ≡ checked kind before avp.now }
{
    if is_misunderstood(avp) {
        return Err(MessageError::UnknownMandatory {
            vendor: avp.vendor,
            attribute: avp.attribute,
        });
    }
    if !is_recognised(avp) {
        return Ok(());
    }
    if avp.vendor == 0 {
        check_use(kind, seen, avp)
    } else {
        check_draw(kind, seen, avp)
    }
}

/// The first fault along the list. Each pair is looked at once.
pub fn check_all(kind: Kind, avps: &LentAvps<'_>) -> Result<(), MessageError>
    ensures { result ≡ checked_all kind [] avps.now }
{
    let mut seen = Seen::new();
    let mut rest = avps.lend();
    while let Some((avp, behind)) = rest.split_first() {
        check_avp(kind, &seen, &avp)?;
        seen.add(&avp);
        rest = behind;
    }
    Ok(())
}
