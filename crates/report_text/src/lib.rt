//! What a report tells, line by line: the text of each line, which tunnels agree and with how many sessions, and which
//! refusal a packet gets that is too old for the control channel that it is for.
#![tactic(auto)]

mod age;
mod agreeing;
mod texts;

pub use age::is_past;
pub use agreeing::{agree, carries, session_count};
pub use texts::{
    push_agree, push_call, push_cause, push_down, push_drop, push_farewell, push_frame, push_gone,
    push_held, push_refusal, push_send, push_stopped, push_tunnel, push_up,
};
