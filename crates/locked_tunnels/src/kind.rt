//! As what a tunnel takes an event.

/// As what a tunnel takes an event.
#[derive(Clone, Copy)]
pub enum TurnKind {
    /// As the tunnel itself.
    Main,
    /// As its recovery tunnel (RFC 4951 section 4.3): a control message.
    Recovery,
    /// As one whose recovery is asked for: an SCCRQ.
    Attempt,
}
