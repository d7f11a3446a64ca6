//! What the ends mean: the definitions that the contracts of the ends cite, and the few types that they share.
//!
//! A step of an end is a function from the end and an event to the next end, its outputs and its moves.
#![tactic(auto)]

mod event;
mod moves;
mod out;
mod tunnel;

pub use end_names::{
    Role, address_of, calling_number, host_name, mac_of, node_of, subscriber, twelve_digits,
};
pub use event::{Addressee, Event};
pub use moves::{
    Accepted, Added, AnsweredQuery, Closed, ClosedBy, Confirmed, Connected, Counted, Declined,
    EndHeard, EndSilent, EndTold, FirstUp, Forgot, FrameSent, FrameUp, Froze, Greeted, LetGo, Move,
    Negotiated, NrRead, Opened, Place, Queried, Refused, Rejected, Repeated, Replied, Requested,
    ResetAnswering, ResetAttempting, Restored, SecondUp, TookAnswer, TookPlain,
};
pub use out::{ControlOrigin, Origin, Out};
pub use tunnel::{Call, CallPlace, CallStep, CallSteps, Config, Control, Mode};
