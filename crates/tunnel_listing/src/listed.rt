//! What is listed of a tunnel, and what one is looked for by.

ghost use Rattle.std.specs.Prelude.{◌≡◌};
ghost use Rattle.tunnel_listing.specs.Listed.{is_told, is_wanted};
ghost use Rattle.end_model.specs.Tunnels.{is_current};

use crate::labels::number_of;
use end_model::Mode;
use tunnel_fsm::TunnelState;

/// By what a tunnel is found.
#[derive(Clone, Copy)]
pub struct Listed {
    /// The other end's IPv4 address, as a number.
    pub peer: u32,
    /// The id that the other end assigned, 0 while it isn't known.
    pub remote: u16,
    pub state: TunnelState,
    pub mode: Mode,
    /// The local id of its recovery tunnel, as long as there is one.
    pub line: Option<u16>,
    /// The id that the other end assigned to its attempt at the tunnel's recovery, as long as this end answers it.
    pub answered: Option<u16>,
}

/// What a tunnel is looked for by.
#[derive(Clone, Copy)]
pub enum Wanted {
    /// It goes to this peer, which assigned this id.
    Known { peer: u32, remote: u16 },
    /// Its end answers the attempt of this peer that has this id.
    Answered { peer: u32, remote: u16 },
    /// Its recovery tunnel has this local id.
    Recovered { line: u16 },
    /// It goes to this peer, is current, and is in this state.
    In { state: TunnelState, peer: u32 },
    /// It goes to this peer and is frozen or restored.
    Recovering { peer: u32 },
}

fn is_told(told: Option<u16>, id: u16) -> bool
    ensures { result ≡ is_told told id }
{
    match told {
        None => false,
        Some(told) => told == id,
    }
}

fn is_current(mode: Mode) -> bool
    ensures { result ≡ is_current mode }
{
    matches!(mode, Mode::Current)
}

/// Whether a tunnel of which this is listed is one that is looked for.
pub fn is_wanted(wanted: Wanted, listed: &Listed) -> bool
    ensures { result ≡ is_wanted wanted listed.now }
{
    match wanted {
        Wanted::Known { peer, remote } => listed.peer == peer && listed.remote == remote,
        Wanted::Answered { peer, remote } => {
            listed.peer == peer && is_told(listed.answered, remote)
        }
        Wanted::Recovered { line } => is_told(listed.line, line),
        Wanted::In { state, peer } => {
            number_of(listed.state) == number_of(state)
                && listed.peer == peer
                && is_current(listed.mode)
        }
        Wanted::Recovering { peer } => listed.peer == peer && !is_current(listed.mode),
    }
}
