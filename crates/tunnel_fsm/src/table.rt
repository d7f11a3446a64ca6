//! States, events and actions, and the row for each pair (RFC 2661 section 7.2).

ghost use Rattle.std.specs.Prelude.{◌≡◌, IsTrue};
ghost use Rattle.tunnel_fsm.specs.Rows.{rows, row_of, is_for, one_row_at_most};
ghost use Rattle.tunnel_fsm.specs.Words.{state_word};
ghost use Rattle.tunnel_fsm.specs.declared.table.TunnelState.{TunnelState};
ghost use Rattle.tunnel_fsm.specs.declared.table.TunnelEvent.{TunnelEvent};
ghost use Rattle.tunnel_fsm.specs.declared.table.TunnelState.TheVariants as states;

/// How far a tunnel is.
#[derive(Clone, Copy)]
pub enum TunnelState {
    Idle,
    WaitCtlReply,
    WaitCtlConn,
    Established,
    Closed,
}

impl TunnelState {
    /// The word for it in reports, in ASCII.
    pub fn word(&self) -> &'static [u8]
        ensures { result.now ≡ state_word self.now }
    {
        match self {
            TunnelState::Idle => b"idle",
            TunnelState::WaitCtlReply => b"wait-ctl-reply",
            TunnelState::WaitCtlConn => b"wait-ctl-conn",
            TunnelState::Established => b"established",
            TunnelState::Closed => b"closed",
        }
    }
}

/// What comes to a tunnel. A message is acceptable, where no cause but its state stands against it, or not.
#[derive(Clone, Copy, Debug)]
pub enum TunnelEvent {
    LocalOpen,
    SccrqAcc,
    SccrqNotAcc,
    SccrpAcc,
    SccrpNotAcc,
    ScccnAcc,
    ScccnNotAcc,
    AdminClose,
    StopCcnCame,
}

/// What the tunnel then does.
#[derive(Clone, Copy)]
pub enum TunnelAction {
    Nothing,
    SendSccrq,
    SendSccrp,
    SendScccn,
    SendStopCcn,
    CleanUp,
}

/// The next state and the action by the table; a pair without a row changes nothing and has no action.
pub fn advance(state: TunnelState, event: TunnelEvent) -> (TunnelState, TunnelAction)
    ensures { result ≡ row_of rows state event }
{
    match (state, event) {
        (_, TunnelEvent::StopCcnCame) => (TunnelState::Closed, TunnelAction::CleanUp),
        (TunnelState::Closed, _) => (state, TunnelAction::Nothing),
        (_, TunnelEvent::AdminClose) => (TunnelState::Closed, TunnelAction::SendStopCcn),
        (TunnelState::Idle, TunnelEvent::LocalOpen) => (
            TunnelState::WaitCtlReply,
            TunnelAction::SendSccrq,
        ),
        (TunnelState::Idle, TunnelEvent::SccrqAcc) => (
            TunnelState::WaitCtlConn,
            TunnelAction::SendSccrp,
        ),
        (TunnelState::Idle, TunnelEvent::ScccnAcc | TunnelEvent::ScccnNotAcc) => (
            TunnelState::Idle,
            TunnelAction::CleanUp,
        ),
        (TunnelState::Idle, _) => (TunnelState::Idle, TunnelAction::SendStopCcn),
        (TunnelState::WaitCtlReply, TunnelEvent::SccrpAcc) => (
            TunnelState::Established,
            TunnelAction::SendScccn,
        ),
        (TunnelState::WaitCtlConn, TunnelEvent::ScccnAcc) => (
            TunnelState::Established,
            TunnelAction::Nothing,
        ),
        (_, TunnelEvent::LocalOpen) => (state, TunnelAction::Nothing),
        (_, _) => (TunnelState::Closed, TunnelAction::SendStopCcn),
    }
}

/// No two rows of the table are for one pair.
pub fn rows_are_apart()
    ensures { (s : TunnelState) (e : TunnelEvent) → IsTrue (one_row_at_most s e rows) }
{}

/// A closed tunnel stays closed.
pub fn closed_stays_closed()
    ensures { (e : TunnelEvent) → (row_of rows states.Closed e).0 ≡ states.Closed }
{}
