//! Where each live call of an end is, and what the data plane sees of it: room for places, and the changes of looks.
#![tactic(auto)]

mod places;

pub use places::{change_looks, look_at, make_places, place_all};
