//! What a tunnel's step goes by, as values: the rows of its calls' tables, room, and what an end says and hides.
#![tactic(auto)]

mod calls;
mod hiding;
mod openings;
mod tunnels;

pub use calls::{
    advanced, asked_for, call_row, copy_call, counted, first_number, idle_call, is_clean_up,
    is_connection, is_passing, is_reply, is_request, number_after, number_of, request_of, rung,
    session_left,
};
pub use hiding::{copy_pairs, hidden_pairs};
pub use openings::{challenge_by, opening_of};
pub use tunnels::{may_take, same_state};
