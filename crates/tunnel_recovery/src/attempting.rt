//! A recovery tunnel whose end attempts the recovery of its tunnel (RFC 4951 section 4.3).

ghost use Rattle.std.specs.Prelude.{◌≡◌, ◌<◌, IfOk, None};
ghost use Rattle.recovery_tunnel.specs.Attempts.{new_attempt};
ghost use Rattle.end_model.specs.Messages.{opening_of};
ghost use Rattle.end_model.specs.Secrets.{challenge_by};
ghost use Rattle.end_model.specs.Recovering.{with_recovery, attempted};

use crate::sending::{draw_both, let_go};
use control_message::Recovery;
use end_model::{Config, Role};
use recovery_tunnel::{Attempt, Recovering};
use tunnel_rules::{challenge_by, opening_of};
use tunnel_turn::turn::Turn;
use wire_base::NoMemory;

/// An attempt at the recovery of a turn's tunnel, over a recovery tunnel with this id and this draw number.
#[tactic(auto, using(crate::proofs::Written::request_written))]
fn new_attempt(
    turn: &Turn,
    role: Role,
    config: &Config,
    local: u16,
    draw: u32,
) -> Result<Attempt, NoMemory>
    requires { 0 < local }
    ensures { IfOk result (λ attempt. attempt ≡ new_attempt local (record { sender = turn.now.control.local; receiver = turn.now.control.remote }) draw (opening_of role config.now (challenge_by config.now.secret turn.now.on.block) None local) turn.now.on.moment) }
{
    let challenge = challenge_by(config, &turn.block);
    let opening = opening_of(turn.alloc, role, config, challenge, None, local)?;
    let main = Recovery {
        sender: u32::from(turn.control.local),
        receiver: u32::from(turn.control.remote),
    };
    Attempt::start(turn.alloc, local, main, draw, opening, turn.moment)
}

/// The recovery of the tunnel is attempted, over a recovery tunnel with this id, which isn't 0, and this draw number: both are drawn in
/// this step. Its SCCRQ goes out.
#[tactic(auto, unfolding(end_model::specs::Recovering::attempted))]
pub fn attempt(
    turn: &mut Turn,
    role: Role,
    config: &Config,
    local: u16,
    draw: u32,
) -> Result<Recovering, NoMemory>
    requires { 0 < local }
    ensures { IfOk result (λ recovery. with_recovery recovery turn.new ≡ attempted role config.now local draw turn.old) }
{
    let attempt = new_attempt(turn, role, config, local, draw)?;
    draw_both(turn);
    let mut recovery = Recovering::ByAttempt(attempt);
    let_go(turn, &mut recovery)?;
    Ok(recovery)
}
