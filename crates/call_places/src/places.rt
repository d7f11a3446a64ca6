//! Where each live call of an end is, and what the data plane sees of it.

ghost use Rattle.std.specs.Prelude.{◌≡◌, OnOk};
ghost use Rattle.id_table.specs.Ids.{at, put};
ghost use Rattle.end_model.specs.End.{placed, with_look, with_looks, look_in, established};
ghost use Rattle.call_places.specs.Rooms.{HaveRoom};

use end_model::CallPlace;
use id_table::Table;
use session_looks::{CellChange, Look};
use wire_base::NoMemory;

/// Makes room for the places of these calls. Where memory is wanting, the places are as before.
pub fn make_places(places: &mut Table<CallPlace>, sessions: &[u16]) -> Result<(), NoMemory>
    ensures same { places.new.entries ≡ places.old.entries }
    ensures room { OnOk result (HaveRoom places.new sessions.now) }
{
    for session in sessions {
        places.make_room(u32::from(*session))?;
    }
    Ok(())
}

/// Puts the calls that a tunnel made where they are; nothing is seen of them yet. It takes no memory.
#[tactic(auto, unfolding(end_model::specs::End::placed))]
pub fn place_all(places: &mut Table<CallPlace>, tunnel: u16, sessions: &[u16])
    requires { HaveRoom places.old sessions.now }
    ensures { places.new.entries ≡ placed tunnel sessions.now places.old.entries }
{
    for session in sessions {
        places.fill(
            u32::from(*session),
            CallPlace {
                tunnel,
                look: Look::Unborn,
            },
        );
    }
}

/// What is bound is established.
fn established(look: Look) -> Look
    ensures { result ≡ established look }
{
    match look {
        Look::Bound { tunnel, peer } => Look::Established { tunnel, peer },
        look => look,
    }
}

/// Changes what is seen of a call. It takes no memory.
#[tactic(auto, unfolding(end_model::specs::End::with_look))]
fn change_look(places: &mut Table<CallPlace>, change: &CellChange)
    ensures { places.new.entries ≡ with_look change.now places.old.entries }
{
    match change {
        CellChange::Bind {
            session,
            tunnel,
            peer,
        } => {
            let id = u32::from(*session);
            if let Some(place) = places.get(id) {
                let look = Look::Bound {
                    tunnel: *tunnel,
                    peer: *peer,
                };
                let place = CallPlace { look, ..*place };
                places.replace(id, place);
            }
        }
        CellChange::Establish { session } => {
            let id = u32::from(*session);
            if let Some(place) = places.get(id) {
                let look = established(place.look);
                let place = CallPlace { look, ..*place };
                places.replace(id, place);
            }
        }
        CellChange::Kill { session } => {
            places.remove(*session);
        }
    }
}

/// Changes what is seen of calls, in order. It takes no memory.
#[tactic(auto, unfolding(end_model::specs::End::with_looks))]
pub fn change_looks(places: &mut Table<CallPlace>, changes: &[CellChange])
    ensures { places.new.entries ≡ with_looks changes.now places.old.entries }
{
    for change in changes {
        change_look(places, change);
    }
}

/// What is seen of a session.
pub fn look_at(places: &Table<CallPlace>, session: u16) -> Look
    ensures { result ≡ look_in (at places.now.entries session) }
{
    match places.get(u32::from(session)) {
        Some(place) => place.look,
        None => Look::Unborn,
    }
}
