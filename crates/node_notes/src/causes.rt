//! The causes of a step, and the moves that they go with.

ghost use Rattle.std.specs.Prelude.{◌≡◌, [], ◌∷◌, MatchOption};
ghost use Rattle.node_notes.specs.Notes.{causes_of, tells_code, cause_for, causes_behind};

use end_model::{Move, Out};
use wire_base::Cause;

/// Whether a peer is told a result code by a move.
fn tells_code(step: &Move) -> bool
    ensures { result ≡ tells_code step.now }
{
    match step {
        Move::EndTold(_) => true,
        Move::Refused(_) => true,
        Move::Declined(_) => true,
        Move::Closed(_) => true,
        Move::Rejected(_) => true,
        _ => false,
    }
}

/// The first cause of these outputs, and the outputs behind it.
fn first_cause(outputs: &[Out]) -> Option<(Cause, &[Out])>
    ensures { MatchOption result (causes_of outputs.now ≡ []) (λ first. causes_of outputs.now ≡ first.0 ∷ causes_of first.1.now) }
{
    let mut left = outputs;
    while let Some((first, behind)) = left.split_first() {
        left = behind;
        if let Out::Cause { cause } = first {
            return Some((*cause, left));
        }
    }
    None
}

/// The cause that goes with a move, where there is one among these outputs, and the outputs that are left behind it.
pub(crate) fn cause_with<'a>(step: &Move, outputs: &'a [Out]) -> (Option<Cause>, &'a [Out])
    ensures cause { result.0 ≡ cause_for (tells_code step.now) (causes_of outputs.now) }
    ensures left { causes_of result.1.now ≡ causes_behind (tells_code step.now) (causes_of outputs.now) }
{
    if !tells_code(step) {
        return (None, outputs);
    }
    match first_cause(outputs) {
        Some((cause, behind)) => (Some(cause), behind),
        None => (None, outputs),
    }
}
