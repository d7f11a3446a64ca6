//! Tunnels of an end that are changed one by one, each behind a lock of its own.
//!
//! A turn of a tunnel is its step as an end makes it: planned in what the hub lends, settled in the hub, and then made on the tunnel and
//! on the cells of its sessions. What a turn was told and gave stands in a value that nothing else makes.
#![tactic(auto)]

mod attempt;
mod kept;
mod kind;
mod listing;
mod locked;
mod looking;
mod one;
mod quiet;
mod table;
mod turned;
mod unlocked;

pub use kept::KeptTunnel;
pub use kind::TurnKind;
pub use locked::Locked;
pub use looking::{has_call, next_session, subscriber_of};
pub use one::{tick_all, turn_one};
pub use table::{Place, Tunnels};
pub use turned::{Turned, kind_turn, shared_turn, tunnel_turn};
