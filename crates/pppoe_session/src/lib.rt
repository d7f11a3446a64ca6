//! Who holds which PPPoE session (RFC 2516 section 5.2 onwards).
#![tactic(auto)]

ghost use Rattle.std.specs.Prelude.{◌≡◌, [], OnOk, OnErr, is_some, IfSome, IfNone, ◌≤◌, ◌-◌, ◌^◌};
ghost use Rattle.pppoe_session.specs.Subscribers.{subscriber_of, holder_of, admitted, dropped, is_repeat, is_from, is_repeat_of, repeat_in, NoneBetween, IsLeast, IsNextPair, HasNoPair, subscriber, AnswersTaken};

use std::alloc::Global;
use std::collections::{BTreeMap, BTreeSet};
use std::marker::Model;
use wire_base::Bytes;

/// Who came by a PADR: the Ethernet address that it came from, and its Host-Uniq where it had one.
#[derive(Drop)]
pub struct Subscriber {
    pub mac: [u8; 6],
    pub uniq: Option<Bytes>,
}

impl Subscriber {
    /// Whether a PADR with this address and Host-Uniq, or with none, repeats the one that this subscriber came by.
    #[tactic(auto, unfolding(crate::specs::Subscribers::is_repeat))]
    fn is_repeated(&self, mac: &[u8; 6], uniq: &Option<Bytes>) -> bool
        ensures { result ≡ is_repeat mac.now uniq.now self.now }
    {
        self.mac == *mac
            && match (&self.uniq, uniq) {
                (None, None) => true,
                (Some(kept), Some(given)) => kept.as_slice() == given.as_slice(),
                _ => false,
            }
    }
}

/// Why a subscriber isn't admitted.
#[derive(Clone, Copy, PartialEq, Eq)]
pub enum AdmitError {
    /// Someone holds this session.
    Taken { session: u16 },
    /// Memory was wanting.
    NoMemory,
}

/// The subscribers by session, seen as the list of entries in the order of the sessions.
#[derive(Drop)]
pub struct Table {
    kept: BTreeMap<u16, Subscriber>,
    // The sessions of each address, so that a repeat is found without a walk over all.
    by_mac: BTreeSet<([u8; 6], u16)>,
}

impl Model for Table {
    ghost use Rattle.std.specs.Prelude.{List, ℕ};
    ghost use Rattle.pppoe_session.specs.declared.Subscriber.{Subscriber};
    ghost use Rattle.pppoe_session.specs.Subscribers.{IsIndexOf, IsInOrder};

    ghost Value = { List (ℕ × Subscriber) };

    ghost view = { λ t. t.kept.entries };

    ghost invariant = { λ t. IsIndexOf t.kept.entries t.by_mac.keys × IsInOrder t.kept.entries };
}

impl Table {
    /// No subscribers. It takes no memory.
    pub fn new(alloc: Global) -> Table
        ensures { result ≡ [] }
    {
        Table {
            kept: BTreeMap::new(alloc),
            by_mac: BTreeSet::new(alloc),
        }
    }

    /// Gives this session to the subscriber that a PADR from this address, and with this Host-Uniq where it has one,
    /// comes from. A session that someone holds is `Taken`. After an error the table is as before. Where the subscriber is taken off
    /// again by `drop_one`, it is too.
    #[tactic(auto, unfolding(crate::specs::Subscribers::admitted, crate::specs::Subscribers::dropped, crate::specs::Subscribers::subscriber_of))]
    pub fn admit(
        &mut self,
        mac: [u8; 6],
        session: u16,
        uniq: Option<Bytes>,
    ) -> Result<(), AdmitError>
        ensures ok { OnOk result (self.new ≡ admitted self.old session (subscriber mac uniq)) }
        ensures err { OnErr result (self.new ≡ self.old) }
        ensures taken { AnswersTaken session (subscriber_of self.old session) result }
        ensures undone { OnOk result (dropped self.new session ≡ self.old) }
    {
        if self.kept.contains_key(&session) {
            return Err(AdmitError::Taken { session });
        }
        let Ok(_) = self.by_mac.insert((mac, session)) else {
            return Err(AdmitError::NoMemory);
        };
        match self.kept.insert(session, Subscriber { mac, uniq }) {
            Ok(_) => Ok(()),
            Err(_) => {
                self.by_mac.remove(&(mac, session));
                Err(AdmitError::NoMemory)
            }
        }
    }

    /// The least pair of an address and a session that it holds, from one on.
    #[tactic(auto, unfolding(crate::specs::Subscribers::subscriber_of))]
    fn next_pair(&self, start: ([u8; 6], u16)) -> Option<([u8; 6], u16)>
        ensures some { IfSome result (IsNextPair self.now start) }
        ensures none { IfNone result (HasNoPair self.now start) }
    {
        match self.by_mac.range(start..).next() {
            Some(pair) => Some(*pair),
            None => None,
        }
    }

    /// The least session, from one on, of a subscriber with this address.
    fn next_from(&self, mac: [u8; 6], first: u16) -> Option<u16>
        ensures some { IfSome result (λ session. first ≤ session × NoneBetween first session (λ s. is_from mac (subscriber_of self.now s))) }
        ensures none { IfNone result (NoneBetween first (2 ^ 16) (λ s. is_from mac (subscriber_of self.now s))) }
    {
        let start = (mac, first);
        let Some(pair) = self.next_pair(start) else {
            return None;
        };
        let found = pair.0;
        if found == mac { Some(pair.1) } else { None }
    }

    /// Whether a PADR with this address and Host-Uniq repeats the one that this session's subscriber came by.
    #[tactic(auto, unfolding(crate::specs::Subscribers::subscriber_of))]
    fn is_repeat_at(&self, session: u16, mac: &[u8; 6], uniq: &Option<Bytes>) -> bool
        ensures { result ≡ is_repeat_of mac.now uniq.now (subscriber_of self.now session) }
    {
        match self.kept.get(&session) {
            Some(subscriber) => subscriber.is_repeated(mac, uniq),
            None => false,
        }
    }

    /// The least session whose subscriber came by a PADR with this address and this Host-Uniq, or with this address and
    /// no Host-Uniq where none is given.
    pub fn repeat_of(&self, mac: [u8; 6], uniq: &Option<Bytes>) -> Option<u16>
        ensures least { IsLeast (λ s. is_repeat_of mac uniq.now (subscriber_of self.now s)) result }
        ensures exact { result ≡ repeat_in self.now mac uniq.now }
    {
        // A look at the field tells the proof the table's invariant.
        let _ = &self.kept;
        let mut first = 0u16;
        while let Some(session) = self.next_from(mac, first) {
            if self.is_repeat_at(session, &mac, uniq) {
                return Some(session);
            }
            if session == u16::MAX {
                return None;
            }
            first = session + 1;
        }
        None
    }

    /// The Ethernet address of the subscriber that holds this session.
    #[tactic(auto, unfolding(crate::specs::Subscribers::holder_of, crate::specs::Subscribers::subscriber_of))]
    pub fn holder(&self, session: u16) -> Option<[u8; 6]>
        ensures { result ≡ holder_of self.now session }
    {
        match self.kept.get(&session) {
            Some(subscriber) => Some(subscriber.mac),
            None => None,
        }
    }

    /// Takes the subscriber off this session, and tells whether one held it. It takes no memory.
    #[tactic(auto, unfolding(crate::specs::Subscribers::dropped, crate::specs::Subscribers::subscriber_of))]
    pub fn drop_one(&mut self, session: u16) -> bool
        ensures there { result ≡ is_some (subscriber_of self.old session) }
        ensures dropped { self.new ≡ dropped self.old session }
    {
        match self.kept.remove(&session) {
            Some(subscriber) => {
                let mac = subscriber.mac;
                self.by_mac.remove(&(mac, session));
                true
            }
            None => false,
        }
    }
}
