//! Why calls end and tunnels close, with the codes of the CDN or the StopCCN that says so (RFC 2661 section 4.4.2).

ghost use Rattle.std.specs.Prelude.{◌≡◌, None};
ghost use Rattle.wire_base.specs.declared.cause.Cause.TheVariants as cause;
ghost use Rattle.end_model.specs.Reasons.{reason, out_of_state, out_of_order, not_asked, no_tunnel, no_id, fault_error, fault_reason};

use std::marker::Model;
use wire_base::Cause;

/// Why a call is ended or refused, or a tunnel closed, and the result code and error code of the CDN, or of the StopCCN, that says so
/// (RFC 2661 section 4.4.2).
#[derive(Drop)]
pub struct Reason {
    pub cause: Cause,
    pub code: u16,
    pub error: Option<u16>,
}

impl Model for Reason {
    ghost use Rattle.end_model.specs.Reasons.{Reason as Known};

    ghost Value = { Known };

    ghost view = { λ r. record { cause = r.cause; result = r.code; error = r.error } };
}

/// A message about a call is out of state.
pub fn out_of_state() -> Reason
    ensures { result ≡ out_of_state }
{
    Reason {
        cause: Cause::State,
        code: 2,
        error: Some(5),
    }
}

/// A message about a tunnel is out of state.
pub fn out_of_order() -> Reason
    ensures { result ≡ out_of_order }
{
    Reason {
        cause: Cause::State,
        code: 7,
        error: None,
    }
}

/// An answer to a query of sessions wasn't asked for, or differs from what was.
pub fn not_asked() -> Reason
    ensures { result ≡ not_asked }
{
    Reason {
        cause: Cause::Query,
        code: 7,
        error: None,
    }
}

/// Outgoing calls aren't served.
pub fn no_outgoing() -> Reason
    ensures { result ≡ reason cause.Outgoing 5 None }
{
    Reason {
        cause: Cause::Outgoing,
        code: 5,
        error: None,
    }
}

/// The end has as many tunnels as it may.
pub fn no_tunnel() -> Reason
    ensures { result ≡ no_tunnel }
{
    Reason {
        cause: Cause::Tunnels,
        code: 2,
        error: Some(4),
    }
}

/// No tunnel id is left.
pub fn no_id() -> Reason
    ensures { result ≡ no_id }
{
    Reason {
        cause: Cause::Ids,
        code: 2,
        error: Some(4),
    }
}

/// The error code of the CDN, or the StopCCN, that answers a fault.
fn fault_error(cause: Cause) -> u16
    ensures { result ≡ fault_error cause }
{
    match cause {
        Cause::Avp => 2,
        Cause::Mandatory => 8,
        _ => 3,
    }
}

/// A message has a fault.
pub fn fault_reason(cause: Cause) -> Reason
    ensures { result ≡ fault_reason cause }
{
    Reason {
        cause,
        code: 2,
        error: Some(fault_error(cause)),
    }
}
