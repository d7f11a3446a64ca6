//! Whom an end hands frames up to.

ghost use Rattle.std.specs.Prelude.{◌≡◌, [], OnOk, OnErr, IfOk, None};
ghost use Rattle.pppoe_session.specs.Subscribers.{holder_of, subscriber};
ghost use Rattle.end_model.specs.Access.{holder, holds, forgets, farewell};
ghost use Rattle.pool_giving.specs.Hosts.{KeepsTold, held_with, gives_some, let_go_of};

use end_names::mac_of;
use lac_core::LacAccess;
use pppoe_discovery::padt_frame;
use pppoe_session::{AdmitError, Table};
use std::alloc::Global;
use std::marker::Model;
use wire_base::{Bytes, NoMemory};

/// Whom an end hands frames up to, and tells that their calls ended.
#[derive(Drop)]
pub struct Hosts {
    number: u8,
    access: LacAccess,
    told: Table,
}

impl Model for Hosts {
    ghost use Rattle.pool_giving.specs.Hosts.{Hosted};

    ghost Value = { Hosted };

    ghost view = { λ h. record { number = h.number; access = h.access; told = h.told } };
}

impl Hosts {
    /// The hosts of the node with this number, of which no subscriber was told yet. It takes no memory.
    pub fn new(alloc: Global, number: u8, access: LacAccess) -> Hosts
        ensures { result ≡ record { number = number; access = access; told = [] } }
    {
        Hosts {
            number,
            access,
            told: Table::new(alloc),
        }
    }

    /// The number of the node.
    pub fn number(&self) -> u8
        ensures { result ≡ self.now.number }
    {
        self.number
    }

    /// What a LAC knows of its hosts.
    pub fn access(&self) -> &LacAccess
        ensures { result.now ≡ self.now.access }
    {
        &self.access
    }

    /// The six bytes of the subscriber of a call, where they were told.
    pub fn told(&self, session: u16) -> Option<[u8; 6]>
        ensures { result ≡ holder_of self.now.told session }
    {
        self.told.holder(session)
    }

    /// Keeps the six bytes of the subscriber of a call, which no other call has after it: ids don't come back.
    pub fn tell(&mut self, session: u16, who: [u8; 6]) -> Result<(), NoMemory>
        ensures ok { OnOk result (self.new ≡ record self.old { told = holds self.old.told session (subscriber who None) }) }
        ensures err { OnErr result (self.new ≡ self.old) }
        ensures kept { KeepsTold self.old self.new }
    {
        match self.told.admit(who, session, None) {
            Ok(()) | Err(AdmitError::Taken { .. }) => Ok(()),
            Err(AdmitError::NoMemory) => Err(NoMemory),
        }
    }

    /// Gives the session that is drawn next, if one is left, to a host that rings, where nobody holds it, and tells whether it did.
    pub fn hold_some(
        &mut self,
        session: Option<u16>,
        mac: [u8; 6],
        uniq: &Option<Bytes>,
    ) -> Result<bool, NoMemory>
        ensures others { (self.new.number ≡ self.old.number) × (self.new.told ≡ self.old.told) × (self.new.access.kept ≡ self.old.access.kept) }
        ensures held { OnOk result (self.new.access.held ≡ held_with self.old.access.held session mac uniq.now) }
        ensures gave { IfOk result (λ gave. gave ≡ gives_some self.old.access.held session) }
        ensures err { OnErr result (self.new ≡ self.old) }
    {
        let Some(session) = session else {
            return Ok(false);
        };
        let uniq = match uniq {
            Some(uniq) => Some(Bytes::from_slice(uniq.allocator(), uniq.as_slice())?),
            None => None,
        };
        match self.access.hosts.admit(mac, session, uniq) {
            Ok(()) => Ok(true),
            Err(AdmitError::Taken { .. }) => Ok(false),
            Err(AdmitError::NoMemory) => Err(NoMemory),
        }
    }

    /// Takes a session back, where it was given. It takes no memory.
    pub fn let_go(&mut self, session: Option<u16>, held: bool)
        ensures { self.new ≡ record self.old { access = record self.old.access { held = let_go_of held session self.old.access.held } } }
    {
        if let Some(session) = session {
            if held {
                self.access.hosts.drop_one(session);
            }
        }
    }

    /// Forgets who had a session before, where there is one. It takes no memory.
    pub fn forget(&mut self, before: Option<u16>)
        ensures { self.new ≡ record self.old { access = record self.old.access { held = forgets before self.old.access.held } } }
    {
        if let Some(session) = before {
            self.access.hosts.drop_one(session);
        }
    }

    /// The Ethernet address of the host of a call, or of that of one that was kept over a start.
    #[tactic(auto, unfolding(end_model::specs::Access::holder))]
    pub fn holder(&self, session: u16) -> Option<[u8; 6]>
        ensures { result ≡ holder self.now.access session }
    {
        match self.access.hosts.holder(session) {
            Some(mac) => Some(mac),
            None => self.access.kept.holder(session),
        }
    }

    /// The PADT that tells a host that its call ended (RFC 2516 section 5.5), a whole Ethernet frame. None where no host had the call. A
    /// session id has 16 bits, and of a larger number the lower ones count. It takes no memory.
    #[tactic(auto, unfolding(end_model::specs::Access::farewell))]
    pub fn padt(&self, session: u32) -> Option<[u8; 20]>
        ensures { result ≡ farewell self.now.number self.now.access session }
    {
        let session = (session % 65_536) as u16;
        let host = self.holder(session)?;
        Some(padt_frame(&mac_of(self.number), &host, session))
    }
}
