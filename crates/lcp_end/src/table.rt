//! States, events and actions, and the entry for each pair (RFC 1661 section 4.1).

ghost use Rattle.std.specs.Prelude.{◌≡◌, ◌≤◌, IsTrue};
ghost use Rattle.lcp_end.specs.Table.{entry, entry_at, state_at, state_number, is_whole};
ghost use Rattle.lcp_end.specs.declared.table.LcpEvent.{LcpEvent};

use crate::entries as rows;

/// How far the negotiation of a link is (RFC 1661 section 4.2). The states stand in the order of their numbers.
#[derive(Clone, Copy)]
pub enum LcpState {
    Initial,
    Starting,
    Closed,
    Stopped,
    Closing,
    Stopping,
    ReqSent,
    AckRcvd,
    AckSent,
    Opened,
}

impl LcpState {
    /// The state with a number of the standard's table; at most 9.
    pub fn at(number: u8) -> LcpState
        requires { number ≤ 9 }
        ensures { result ≡ state_at number }
    {
        match number {
            0 => LcpState::Initial,
            1 => LcpState::Starting,
            2 => LcpState::Closed,
            3 => LcpState::Stopped,
            4 => LcpState::Closing,
            5 => LcpState::Stopping,
            6 => LcpState::ReqSent,
            7 => LcpState::AckRcvd,
            8 => LcpState::AckSent,
            _ => LcpState::Opened,
        }
    }

    /// Its number in the standard's table.
    pub fn number(self) -> u8
        ensures { result ≡ state_number self }
    {
        match self {
            LcpState::Initial => 0,
            LcpState::Starting => 1,
            LcpState::Closed => 2,
            LcpState::Stopped => 3,
            LcpState::Closing => 4,
            LcpState::Stopping => 5,
            LcpState::ReqSent => 6,
            LcpState::AckRcvd => 7,
            LcpState::AckSent => 8,
            LcpState::Opened => 9,
        }
    }
}

/// What comes to the automaton, in the order of the table's rows (RFC 1661 section 4.3).
#[derive(Clone, Copy, Debug)]
pub enum LcpEvent {
    /// The lower layer is up.
    Up,
    /// The lower layer is down.
    Down,
    /// The link is to be opened.
    Opens,
    /// The link is to be closed.
    Closes,
    /// The timer ran out, and the restart count isn't 0.
    ToMore,
    /// The timer ran out, and the restart count is 0.
    ToLast,
    /// A Configure-Request came, whose options are all fine.
    RcrGood,
    /// A Configure-Request came, with options that aren't.
    RcrBad,
    /// A Configure-Ack came.
    Rca,
    /// A Configure-Nak or a Configure-Reject came.
    Rcn,
    /// A Terminate-Request came.
    Rtr,
    /// A Terminate-Ack came.
    Rta,
    /// A packet with an unknown code came.
    Ruc,
    /// A Code-Reject or a Protocol-Reject came that the link can do with.
    RxjGood,
    /// A Code-Reject or a Protocol-Reject came that the link can't do with.
    RxjBad,
    /// An Echo-Request came.
    Rxr,
}

/// What the automaton then does (RFC 1661 section 4.4).
#[derive(Clone, Copy)]
pub struct LcpActions {
    /// This-Layer-Up.
    pub tlu: bool,
    /// This-Layer-Down.
    pub tld: bool,
    /// This-Layer-Started.
    pub tls: bool,
    /// This-Layer-Finished.
    pub tlf: bool,
    /// Initialize-Restart-Count.
    pub irc: bool,
    /// Zero-Restart-Count.
    pub zrc: bool,
    /// Send-Configure-Request.
    pub scr: bool,
    /// Send-Configure-Ack.
    pub sca: bool,
    /// Send-Configure-Nak, or Send-Configure-Reject.
    pub scn: bool,
    /// Send-Terminate-Request.
    pub stq: bool,
    /// Send-Terminate-Ack.
    pub sta: bool,
    /// Send-Code-Reject.
    pub scj: bool,
    /// Send-Echo-Reply.
    pub ser: bool,
}

/// The next state and the actions by the table; a pair that can't come changes nothing and has no action.
pub(crate) fn advance(state: LcpState, event: LcpEvent) -> (LcpState, LcpActions)
    ensures { result ≡ entry state event }
{
    match event {
        LcpEvent::Up => rows::up(state),
        LcpEvent::Down => rows::down(state),
        LcpEvent::Opens => rows::opens(state),
        LcpEvent::Closes => rows::closes(state),
        LcpEvent::ToMore => rows::timed_out(state),
        LcpEvent::ToLast => rows::timed_out_last(state),
        LcpEvent::RcrGood => rows::good_request(state),
        LcpEvent::RcrBad => rows::bad_request(state),
        LcpEvent::Rca => rows::acknowledged(state),
        LcpEvent::Rcn => rows::refused(state),
        LcpEvent::Rtr => rows::terminated(state),
        LcpEvent::Rta => rows::termination_acknowledged(state),
        LcpEvent::Ruc => rows::unknown_code(state),
        LcpEvent::RxjGood => rows::good_reject(state),
        LcpEvent::RxjBad => rows::bad_reject(state),
        LcpEvent::Rxr => rows::echo(state),
    }
}

/// One entry of the table of RFC 1661 section 4.1: the next state and the actions. States have the numbers of that
/// table, from 0, Initial, to 9, Opened. A pair that can't come changes nothing and has no action.
pub fn lcp_advance(state: u8, event: LcpEvent) -> (u8, LcpActions)
    requires { state ≤ 9 }
    ensures value { result ≡ entry_at state event }
    ensures within { result.0 ≤ 9 }
{
    let (next, actions) = advance(LcpState::at(state), event);
    (next.number(), actions)
}

/// Each event has one row, and each row a cell for each state.
pub fn table_is_whole()
    ensures { (e : LcpEvent) → IsTrue (is_whole e) }
{}
