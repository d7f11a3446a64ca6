//! What a step of a tunnel is about.

use control_message::Opening;
use end_model::Event;
use l2tp_datagram::Body;
use l2tp_header::Header;
use session_book::{BookCall, BookTunnel};

/// What a step of a tunnel is about. Each kind goes through the one plan.
#[derive(Drop)]
pub enum Task<'a> {
    /// An event of the tunnel.
    Event(&'a Event),
    /// A control message for its recovery tunnel.
    Recovery {
        header: &'a Header,
        body: &'a Body<'a>,
    },
    /// An SCCRQ of its peer that asks for its recovery, and is answered: the answer gets this tunnel id and this draw number.
    Freeze {
        opening: &'a Opening,
        local: u16,
        draw: u32,
    },
    /// Its end starts, and has kept it with these calls: the attempt at its recovery gets this tunnel id and this draw number.
    Restore {
        tunnel: &'a BookTunnel,
        calls: &'a [BookCall],
        local: u16,
        draw: u32,
    },
}
