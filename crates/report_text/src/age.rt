//! Packets that were sent before the last reset of the tunnel that they are for, or have outlived half of the numbers of its channel.

ghost use Rattle.std.specs.Prelude.{◌≡◌};
ghost use Rattle.world_model.specs.World.{outlives, counts_now, outlived, is_past};

use end_model::{Control, ControlOrigin};
use world_model::{Counts, Refusal, Standing};

/// The half of the numbers of a control channel that are below one of them (RFC 2661 section 5.8).
const HALF: u64 = 32_767;

/// Whether a number is more than half of the numbers below a count.
fn outlives(number: u64, count: u64) -> bool
    ensures { result ≡ outlives number count }
{
    count.saturating_sub(number) > HALF
}

/// What a tunnel has taken, and what was acknowledged, in its epoch: as its channel counts, or as the one did that was lost.
fn counts_now(lost: Option<Counts>, tunnel: &Control) -> Counts
    ensures { result ≡ counts_now lost tunnel.now }
{
    match lost {
        Some(counts) => counts,
        None => Counts {
            taken: tunnel.channel.taken_count(),
            acked: tunnel.channel.acked_count(),
        },
    }
}

/// Why a control message is refused whose numbers have outlived half of them, by these counts.
fn outlived(origin: &ControlOrigin, counts: Counts) -> Option<Refusal>
    ensures { result ≡ outlived origin.now counts }
{
    if outlives(origin.ns, counts.taken) {
        return Some(Refusal::HalfSpace {
            number: origin.ns,
            count: counts.taken,
        });
    }
    if outlives(origin.nr, counts.acked) {
        return Some(Refusal::HalfSpace {
            number: origin.nr,
            count: counts.acked,
        });
    }
    None
}

/// Why a control message that was sent in this epoch is refused by the tunnel that it is for, of which this is counted; if it is.
pub fn is_past(
    epoch: u64,
    origin: &ControlOrigin,
    standing: Standing,
    tunnel: &Control,
) -> Option<Refusal>
    ensures { result ≡ is_past epoch origin.now standing tunnel.now }
{
    if epoch < standing.epoch {
        return Some(Refusal::Stale {
            packet_epoch: epoch,
            own_epoch: standing.epoch,
        });
    }
    if epoch == standing.epoch {
        return outlived(origin, counts_now(standing.lost, tunnel));
    }
    None
}
