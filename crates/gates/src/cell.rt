//! What a row keeps of one request.
ghost use Rattle.std.specs.Prelude.{◌≡◌, ◌+◌, ◌-◌, ◌^◌, ◌<◌};
ghost use Rattle.gates.specs.Slots.{slot_of, joins_of, hosts_of, is_pending, is_draining, is_severing, is_placed_invalid, is_target_timer, behind_next};

use crate::traits::Traits;

/// What the entries before a request make of it.
#[derive(Clone, Copy, PartialEq, Eq)]
pub struct Behind {
    /// An earlier member of its chain failed, and ended the rest of it.
    pub severed: bool,
    /// An earlier member of its chain has not replied.
    pub held: bool,
    /// A LINK_TIMEOUT may stand here.
    pub hosted: bool,
    /// The number of the first member of its chain.
    pub head: u64,
}

/// A request in its cell.
#[derive(Drop)]
pub struct Cell {
    pub traits: Traits,
    pub last: bool,
    /// Once it has replied: whether the reply fails.
    pub reply: Option<bool>,
    pub behind: Behind,
}

impl Cell {
    /// The next request of the ring is in its chain.
    pub fn joins(&self) -> bool
        ensures { result ≡ joins_of (slot_of self.now) }
    {
        (self.traits.links_soft || self.traits.links_hard) && !self.last
    }

    /// A LINK_TIMEOUT may stand directly after it.
    pub fn hosts(&self) -> bool
        ensures { result ≡ hosts_of (slot_of self.now) }
    {
        self.joins() && !self.traits.link_timeout
    }

    /// It has not replied.
    pub fn is_pending(&self) -> bool
        ensures { result ≡ is_pending (slot_of self.now) }
    {
        self.reply.is_none()
    }

    /// It has not replied, and holds back all later requests.
    pub fn is_draining(&self) -> bool
        ensures { result ≡ is_draining (slot_of self.now) }
    {
        self.is_pending() && self.traits.drains
    }

    /// It is placed as a LINK_TIMEOUT.
    pub fn is_link_timeout(&self) -> bool
        ensures { result ≡ is_target_timer self.now.behind.hosted (slot_of self.now) }
    {
        self.behind.hosted && self.traits.link_timeout
    }

    /// It is placed as Invalid: it was handed in so, or as a LINK_TIMEOUT that has no target.
    fn is_invalid(&self) -> bool
        ensures { result ≡ is_placed_invalid self.now.behind.hosted (slot_of self.now) }
    {
        self.traits.invalid || (self.traits.link_timeout && !self.behind.hosted)
    }

    /// It has replied so that the rest of its chain is ended.
    pub fn severs(&self) -> bool
        ensures { result ≡ is_severing self.now.behind.hosted (slot_of self.now) }
    {
        match self.reply {
            Some(true) => !self.traits.links_hard || self.is_invalid(),
            _ => false,
        }
    }

    /// What the entries before the next request make of that one, where this is the request `k`.
    pub fn next(&self, k: u64) -> Behind
        requires { k < 2 ^ 64 - 1 }
        ensures { result ≡ behind_next k (slot_of self.now) self.now.behind }
    {
        let joins = self.joins();
        Behind {
            severed: joins && (self.severs() || self.behind.severed),
            held: joins && (self.is_pending() || self.behind.held),
            hosted: self.hosts(),
            head: if joins { self.behind.head } else { k + 1 },
        }
    }
}
