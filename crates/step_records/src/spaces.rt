//! Where an end draws its ids from.

use id_source::Ids;
use std::marker::Model;

/// The spaces of an end's tunnel ids, of its session ids, and of the draw numbers of its recoveries.
#[derive(Clone, Copy)]
pub struct Spaces {
    pub tunnels: Ids,
    pub sessions: Ids,
    pub recoveries: Ids,
}

impl Model for Spaces {
    ghost use Rattle.end_model.specs.Tunnels.{Drawing};

    ghost Value = { Drawing };

    ghost view = { λ s. record { tunnels = s.tunnels; sessions = s.sessions; recoveries = s.recoveries } };

    ghost inverse = { λ d. record { tunnels = d.tunnels; sessions = d.sessions; recoveries = d.recoveries } };
}
