//! States, events and actions, and the rows for each pair (RFC 2661 section 7.4).

ghost use Rattle.std.specs.Prelude.{◌≡◌, IsTrue};
ghost use Rattle.call_fsm.specs.Rows.{lac_rows, lns_rows, row_of, one_row_at_most};
ghost use Rattle.call_fsm.specs.Words.{state_word};
ghost use Rattle.call_fsm.specs.declared.table.CallState.{CallState};
ghost use Rattle.call_fsm.specs.declared.table.CallEvent.{CallEvent};

/// How far a call is.
#[derive(Clone, Copy)]
pub enum CallState {
    Idle,
    WaitTunnel,
    WaitReply,
    WaitConnect,
    Established,
}

impl CallState {
    /// The word for it in reports, in ASCII.
    pub fn word(&self) -> &'static [u8]
        ensures { result.now ≡ state_word self.now }
    {
        match self {
            CallState::Idle => b"idle",
            CallState::WaitTunnel => b"wait-tunnel",
            CallState::WaitReply => b"wait-reply",
            CallState::WaitConnect => b"wait-connect",
            CallState::Established => b"established",
        }
    }
}

/// What comes to a call. A message is acceptable, where no cause but its state stands against it, or not.
#[derive(Clone, Copy, Debug)]
pub enum CallEvent {
    Ring,
    TunnelOpen,
    IcrqAcc,
    IcrqNotAcc,
    IcrpAcc,
    IcrpNotAcc,
    IccnAcc,
    IccnNotAcc,
    CdnCame,
    Close,
    LineDrop,
}

/// What the call then does.
#[derive(Clone, Copy)]
pub enum CallAction {
    Nothing,
    SendIcrq,
    SendIcrp,
    SendIccn,
    SendCdn,
    CleanUp,
    /// The message is dropped, since it is for no call.
    DropSession,
}

/// The next state and the action at a LAC; a pair without a row changes nothing and has no action.
pub fn lac_advance(state: CallState, event: CallEvent) -> (CallState, CallAction)
    ensures { result ≡ row_of lac_rows state event }
{
    match (state, event) {
        (CallState::Idle, CallEvent::Ring) => (CallState::WaitTunnel, CallAction::Nothing),
        (
            CallState::Idle,
            CallEvent::IcrpAcc
            | CallEvent::IcrpNotAcc
            | CallEvent::IccnAcc
            | CallEvent::IccnNotAcc
            | CallEvent::CdnCame,
        ) => (CallState::Idle, CallAction::DropSession),
        (CallState::WaitTunnel, CallEvent::TunnelOpen) => {
            (CallState::WaitReply, CallAction::SendIcrq)
        }
        (CallState::WaitTunnel, CallEvent::Close | CallEvent::LineDrop) => {
            (CallState::Idle, CallAction::CleanUp)
        }
        (CallState::WaitReply, CallEvent::IcrpAcc) => {
            (CallState::Established, CallAction::SendIccn)
        }
        (
            CallState::WaitReply,
            CallEvent::IcrpNotAcc
            | CallEvent::IcrqAcc
            | CallEvent::IcrqNotAcc
            | CallEvent::Close
            | CallEvent::LineDrop,
        ) => (CallState::Idle, CallAction::SendCdn),
        (CallState::WaitReply, CallEvent::CdnCame | CallEvent::IccnAcc | CallEvent::IccnNotAcc) => {
            (CallState::Idle, CallAction::CleanUp)
        }
        (CallState::Established, CallEvent::CdnCame) => (CallState::Idle, CallAction::CleanUp),
        (CallState::Established, CallEvent::Ring | CallEvent::TunnelOpen) => {
            (state, CallAction::Nothing)
        }
        (CallState::Established, _) => (CallState::Idle, CallAction::SendCdn),
        (_, _) => (state, CallAction::Nothing),
    }
}

/// The next state and the action at an LNS; a pair without a row changes nothing and has no action.
pub fn lns_advance(state: CallState, event: CallEvent) -> (CallState, CallAction)
    ensures { result ≡ row_of lns_rows state event }
{
    match (state, event) {
        (CallState::Idle, CallEvent::IcrqAcc) => (CallState::WaitConnect, CallAction::SendIcrp),
        (CallState::Idle, CallEvent::IcrqNotAcc | CallEvent::IcrpAcc | CallEvent::IcrpNotAcc) => {
            (CallState::Idle, CallAction::SendCdn)
        }
        (CallState::Idle, CallEvent::IccnAcc | CallEvent::IccnNotAcc | CallEvent::CdnCame) => {
            (CallState::Idle, CallAction::DropSession)
        }
        (CallState::Idle, _) => (state, CallAction::Nothing),
        (_, CallEvent::CdnCame) => (CallState::Idle, CallAction::CleanUp),
        (CallState::WaitConnect, CallEvent::IccnAcc) => {
            (CallState::Established, CallAction::Nothing)
        }
        (
            CallState::WaitConnect | CallState::Established,
            CallEvent::IcrqAcc
            | CallEvent::IcrqNotAcc
            | CallEvent::IcrpAcc
            | CallEvent::IcrpNotAcc
            | CallEvent::IccnAcc
            | CallEvent::IccnNotAcc
            | CallEvent::Close,
        ) => (CallState::Idle, CallAction::SendCdn),
        (_, _) => (state, CallAction::Nothing),
    }
}

/// No two rows of a table are for one pair.
pub fn rows_are_apart()
    ensures lac { (s : CallState) (e : CallEvent) → IsTrue (one_row_at_most s e lac_rows) }
    ensures lns { (s : CallState) (e : CallEvent) → IsTrue (one_row_at_most s e lns_rows) }
{}
