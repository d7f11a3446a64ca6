//! Why a ring was refused.

ghost use Rattle.std.specs.Prelude.{◌≡◌, find, option_copied};
ghost use Rattle.end_model.specs.Access.{refusal_in, ring_cause};
ghost use Rattle.lac_core.specs.Entering.{is_refused};

use end_model::Out;
use wire_base::Cause;

/// The first output that tells a cause.
fn first_refused(outputs: &[Out]) -> Option<&Out>
    ensures { option_copied result ≡ find is_refused outputs.now }
{
    outputs.iter().find(|out| matches!(out, Out::Cause { .. }))
}

/// The cause for which a ring is refused, where this one is told.
fn ring_cause(cause: Cause) -> Cause
    ensures { result ≡ ring_cause cause }
{
    match cause {
        Cause::Tunnels | Cause::Calls | Cause::Queue | Cause::Recovering => cause,
        _ => Cause::Ids,
    }
}

/// The cause for which a ring was refused, by what its turn gave: the first that it tells.
#[tactic(auto, using(lac_core::proofs::Entering::refusal_found))]
pub fn refusal_in(outputs: &[Out]) -> Cause
    ensures { result ≡ refusal_in outputs.now }
{
    match first_refused(outputs) {
        Some(Out::Cause { cause }) => ring_cause(*cause),
        _ => Cause::Ids,
    }
}
