//! The words of cells: the state in bits 63 and 62, the local id of the tunnel in bits 61 to 46, the peer in bits 45 to 14.

ghost use Rattle.std.specs.Prelude.{◌≡◌};
ghost use Rattle.session_cells.specs.Words as spec;
ghost use Rattle.session_cells.specs.Words.{look_in};
ghost use Rattle.session_looks.specs.declared.look.Look.TheVariants.{Bound, Established};

use session_looks::Look;

/// The word of a bound cell.
pub(crate) fn bound_word(tunnel: u16, peer: u32) -> u64
    ensures { result ≡ spec.word_of (Bound tunnel peer) }
{
    (1 << 62) + u64::from(tunnel) * (1 << 46) + u64::from(peer) * (1 << 14)
}

/// The word of an established cell.
pub(crate) fn established_word(tunnel: u16, peer: u32) -> u64
    ensures { result ≡ spec.word_of (Established tunnel peer) }
{
    (1 << 63) + u64::from(tunnel) * (1 << 46) + u64::from(peer) * (1 << 14)
}

/// The word of a dead cell.
pub(crate) const DEAD: u64 = 3 << 62;

/// The word of a state.
pub(crate) fn word_of(look: Look) -> u64
    ensures { result ≡ spec.word_of look }
{
    match look {
        Look::Unborn => 0,
        Look::Bound { tunnel, peer } => bound_word(tunnel, peer),
        Look::Established { tunnel, peer } => established_word(tunnel, peer),
        Look::Dead => DEAD,
    }
}

/// The state that a word stands for.
pub(crate) fn look_of(word: u64) -> Look
    ensures { result ≡ look_in word }
{
    let tunnel = (word / (1 << 46) % (1 << 16)) as u16;
    let peer = (word / (1 << 14) % (1 << 32)) as u32;
    match word / (1 << 62) {
        0 => Look::Unborn,
        1 => Look::Bound { tunnel, peer },
        2 => Look::Established { tunnel, peer },
        _ => Look::Dead,
    }
}
