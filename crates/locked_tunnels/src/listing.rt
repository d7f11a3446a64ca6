//! How a tunnel is listed.

ghost use Rattle.std.specs.Prelude.{◌≡◌};
ghost use Rattle.std.specs.Option.{option_copied};
ghost use Rattle.end_model.specs.Tunnels.{mode_of};
ghost use Rattle.tunnel_core.specs.Cores.{tunnel_of, made_of};
ghost use Rattle.tunnel_listing.specs.Listed.{listed_as, listed_by, line_of, answered_of};

use end_model::{Control, Mode};
use recovery_tunnel::Recovering;
use tunnel_core::{Planned, TunnelCore};
use tunnel_listing::Listed;

fn line_of(recovery: Option<&Recovering>) -> Option<u16>
    ensures { result ≡ line_of (option_copied recovery.entry) }
{
    match recovery {
        None => None,
        Some(recovery) => Some(recovery.local()),
    }
}

fn answered_of(recovery: Option<&Recovering>) -> Option<u16>
    ensures { result ≡ answered_of (option_copied recovery.entry) }
{
    match recovery {
        Some(Recovering::ByAnswer(answer)) => Some(answer.remote()),
        Some(Recovering::ByAttempt(_)) | None => None,
    }
}

/// The mode of a tunnel that has this recovery tunnel.
fn mode_of(recovery: Option<&Recovering>) -> Mode
    ensures { result ≡ mode_of (option_copied recovery.entry) }
{
    let Some(recovery) = recovery else {
        return Mode::Current;
    };
    if recovery.is_reset() {
        return Mode::Current;
    }
    match recovery {
        Recovering::ByAttempt(_) => Mode::Restored,
        Recovering::ByAnswer(_) => Mode::Frozen,
    }
}

fn listed_by(control: &Control, recovery: Option<&Recovering>) -> Listed
    ensures { result ≡ listed_by control.now (option_copied recovery.entry) }
{
    Listed {
        peer: control.peer,
        remote: control.remote,
        state: control.state,
        mode: mode_of(recovery),
        line: line_of(recovery),
        answered: answered_of(recovery),
    }
}

/// How a tunnel is listed as it is now.
pub(crate) fn listed_of(core: &TunnelCore) -> Listed
    ensures { result ≡ listed_as (tunnel_of core.now) }
{
    listed_by(core.control(), core.recovery())
}

/// How a tunnel is listed after what is planned for it.
pub(crate) fn listed_after(core: &TunnelCore, planned: &Planned) -> Listed
    ensures { result ≡ listed_as (made_of planned.now (tunnel_of core.now)) }
{
    let recovery = match planned.recovery() {
        None => core.recovery(),
        Some(after) => after,
    };
    listed_by(planned.control(), recovery)
}
