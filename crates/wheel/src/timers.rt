//! Timers in a hashed wheel.
ghost use Rattle.std.specs.Prelude.{◌≡◌, ℕ, ◌+◌, ◌%◌, ◌<◌, ◌≤◌, IsTrue, IsSome, is_some, true, false, None, Some, OnOk, OnErr, ◌↔◌, length};
ghost use Rattle.std.specs.HashMap.{spare};
ghost use Rattle.history.specs.declared.req.Req.{Req};
ghost use Rattle.wheel.specs.{armed, dropped, IsFirstDue, InOrder, AreFrom, IsLeast, StandFrom, bound_of, deadline_at, earlier_of, front_of, has_deadline, in_slot, slot_list};

use crate::error::Memory;
use crate::looks::Looks;
use crate::set::TimerSet;
use crate::slots::Slots;
use crate::sorted::Timer;
use history::Req;
use std::alloc::Global;
use std::collections::HashMap;
use std::marker::{Brand, Model};
use std::sync::ledger::{Blank, Ledger};

/// The deadline of each request, by its ring and its number: a pair, so that `Req` needs no hash.
type Deadlines = HashMap<(u16, u64), u32>;

/// Timers in a wheel of 256 slots: each stands in the slot of its deadline modulo 256. Contracts see the requests with their
/// deadlines, in no order.
#[derive(Drop)]
pub struct Timers {
    slots: Slots,
    deadlines: Deadlines,
    /// No deadline is below this one. It may be too early until `catch_up`.
    soonest: u32,
}

impl Model for Timers {
    ghost use Rattle.std.specs.Prelude.{List, ℕ};

    ghost Value = { List ((ℕ × ℕ) × ℕ) };

    ghost use Rattle.wheel.specs.Wheel.{AreFrom, IsWheel};

    ghost view = { λ t. t.deadlines.entries };

    ghost invariant = { λ t. IsWheel t.slots t.deadlines.entries × AreFrom t.soonest t.deadlines.entries };
}

/// What stands at the front of a slot.
#[derive(Clone, Copy)]
struct Front {
    slot: u8,
    front: Option<(Req, u32)>,
}

/// The slot of a deadline.
fn slot_of(at: u32) -> u8
    ensures { result ≡ at % 256 }
{
    (at % 256) as u8
}

/// Notes the deadline of a request, for which there is room, and gives the old one.
fn note(deadlines: &mut Deadlines, req: Req, at: u32) -> Option<u32>
    requires { 0 < spare deadlines.old }
    ensures old { result ≡ deadline_at deadlines.old.entries req }
    ensures noted { (q : Req) → deadline_at deadlines.new.entries q ≡ armed (deadline_at deadlines.old.entries) req at q }
{
    match deadlines.insert((req.ring, req.k), at) {
        Ok(old) => old,
        Err(_) => None,
    }
}

/// Forgets the deadline of a request, and gives it.
fn forget(deadlines: &mut Deadlines, req: Req) -> Option<u32>
    ensures old { result ≡ deadline_at deadlines.old.entries req }
    ensures forgotten { (q : Req) → deadline_at deadlines.new.entries q ≡ dropped (deadline_at deadlines.old.entries) req q }
    ensures fewer { IsSome result → length deadlines.new.entries + 1 ≡ length deadlines.old.entries }
{
    deadlines.remove(&(req.ring, req.k))
}

/// The one of the two that is due first.
fn earlier(one: Option<(Req, u32)>, other: Option<(Req, u32)>) -> Option<(Req, u32)>
    ensures { result ≡ earlier_of one other }
{
    let Some(a) = one else {
        return other;
    };
    let Some(b) = other else {
        return one;
    };
    if b.1 < a.1 { other } else { one }
}

/// Whether the request has a timer in the slot: only where this says so.
fn may_stand_in(deadlines: &Deadlines, req: Req, slot: u8) -> bool
    ensures { result ≡ false → in_slot slot (deadline_at deadlines.now.entries req) ≡ None }
{
    match deadlines.get(&(req.ring, req.k)) {
        None => false,
        Some(at) => slot_of(*at) == slot,
    }
}

/// The lower of two deadlines.
fn lower(one: u32, other: u32) -> u32
    ensures one { result ≤ one }
    ensures other { result ≤ other }
{
    if one < other { one } else { other }
}

/// The bound of the deadlines that are left: the highest where there are none.
fn bound_left(deadlines: &Deadlines, soonest: u32) -> u32
    ensures { AreFrom soonest deadlines.now.entries → AreFrom result deadlines.now.entries }
{
    if deadlines.is_empty() {
        u32::MAX
    } else {
        soonest
    }
}

/// Whether there is a timer, with this deadline.
fn is_at(front: Option<(Req, u32)>, at: u32) -> bool
    ensures { result ≡ has_deadline front at }
{
    match front {
        None => false,
        Some(timer) => timer.1 == at,
    }
}

/// The front of a slot. One slot's front is known.
fn front_beside<L: Ledger>(
    slots: &Slots,
    slot: u8,
    known: Front,
    looks: &mut Looks<L>,
) -> Option<(Req, u32)>
    requires known { known.front ≡ front_of (slot_list slots.now known.slot) }
    requires sorted { InOrder (slot_list slots.now known.slot) }
    ensures first { result ≡ front_of (slot_list slots.now slot) }
    ensures sorted { InOrder (slot_list slots.now slot) }
    ensures looked { looks.new ≤ looks.old + 1 }
    ensures known { slot ≡ known.slot → looks.new ≡ looks.old }
{
    if slot == known.slot {
        return known.front;
    }
    slots.front(slot, looks)
}

/// A timer of least deadline, found at the fronts of all slots, of which one is known.
fn least_beside<L: Ledger>(slots: &Slots, known: Front, looks: &mut Looks<L>) -> Option<(Req, u32)>
    requires known { known.front ≡ front_of (slot_list slots.now known.slot) }
    requires sorted { InOrder (slot_list slots.now known.slot) }
    ensures least { IsLeast slots.now 256 result }
    ensures looked { looks.new ≤ looks.old + 255 }
{
    let mut best = None;
    for slot in 0..256u16 {
        let front = front_beside(slots, slot as u8, known, looks);
        best = earlier(best, front);
    }
    best
}

/// A timer of least deadline. No deadline is below `soonest`, so the slot of this one comes first: a timer there that has it is
/// one of least deadline.
fn least<L: Ledger>(slots: &Slots, soonest: u32, looks: &mut Looks<L>) -> Option<(Req, u32)>
    requires { StandFrom soonest slots.now }
    ensures least { IsLeast slots.now 256 result }
    ensures looked { looks.new ≤ looks.old + 256 }
{
    let slot = slot_of(soonest);
    let front = slots.front(slot, looks);
    if is_at(front, soonest) {
        return front;
    }
    least_beside(slots, Front { slot, front }, looks)
}

/// The deadline of a timer, and the highest where there is none.
fn bound_by(first: Option<(Req, u32)>) -> u32
    ensures { result ≡ bound_of first }
{
    match first {
        None => u32::MAX,
        Some(timer) => timer.1,
    }
}

impl Timers {
    /// No timers.
    pub fn new(alloc: Global) -> Timers
        ensures { (q : Req) → deadline_at result q ≡ None }
    {
        Timers {
            slots: Slots::new(alloc),
            deadlines: HashMap::new(alloc),
            soonest: u32::MAX,
        }
    }

    /// Whether the request has a timer.
    pub fn has_timer(&self, req: Req) -> bool
        ensures { result ≡ is_some (deadline_at self.now req) }
    {
        !self.deadlines.is_empty() && self.deadlines.contains_key(&(req.ring, req.k))
    }

    /// `arm`, which looks at the slot of the deadline, and at the slot of the one that it replaces.
    /// Room in the map comes first, then that in the slot, and the old deadline goes out last: what can fail comes before any change.
    pub fn arm_counted<L: Ledger>(
        &mut self,
        req: Req,
        at: u32,
        looks: &mut Looks<L>,
    ) -> Result<(), Memory>
        ensures ok { OnOk result (deadline_at self.new ≡ armed (deadline_at self.old) req at) }
        ensures err { OnErr result (deadline_at self.new ≡ deadline_at self.old) }
        ensures looked { looks.new ≤ looks.old + 2 }
        ensures one_slot { deadline_at self.old req ≡ None → looks.new ≤ looks.old + 1 }
    {
        if self.deadlines.reserve(1).is_err() {
            return Err(Memory);
        }
        let slot = slot_of(at);
        let is_absent = !may_stand_in(&self.deadlines, req, slot);
        self.slots.arm(slot, Timer { req, at }, is_absent, looks)?;
        self.soonest = lower(self.soonest, at);
        if let Some(old) = note(&mut self.deadlines, req, at) {
            let before = slot_of(old);
            if before != slot {
                self.slots.drop_timer(before, Timer { req, at: old }, looks);
            }
        }
        Ok(())
    }

    /// `drop_timer`, which looks at one slot, and at none where there are no timers.
    pub fn drop_counted<L: Ledger>(&mut self, req: Req, looks: &mut Looks<L>) -> bool
        ensures there { IsTrue result ↔ IsSome (deadline_at self.old req) }
        ensures dropped { deadline_at self.new ≡ dropped (deadline_at self.old) req }
        ensures fewer { IsTrue result → length self.new + 1 ≡ length self.old }
        ensures one_slot { looks.new ≤ looks.old + 1 }
        ensures idle { length self.old ≡ 0 → looks.new ≡ looks.old }
    {
        if self.deadlines.is_empty() {
            return false;
        }
        match forget(&mut self.deadlines, req) {
            None => false,
            Some(at) => {
                self.slots.drop_timer(slot_of(at), Timer { req, at }, looks);
                self.soonest = bound_left(&self.deadlines, self.soonest);
                true
            }
        }
    }

    /// `due`, which looks at the fronts of the slots, each at most once, and at none where there are no timers. Nor does it where
    /// `catch_up` found all deadlines later, and none before them was armed since.
    pub fn due_counted<L: Ledger>(&self, now: u32, looks: &mut Looks<L>) -> Option<Req>
        ensures due { IsFirstDue (deadline_at self.now) now result }
        ensures looked { looks.new ≤ looks.old + 256 }
        ensures idle { length self.now ≡ 0 → looks.new ≡ looks.old }
    {
        if self.deadlines.is_empty() {
            return None;
        }
        if now < self.soonest {
            return None;
        }
        let (req, at) = least(&self.slots, self.soonest, looks)?;
        if at <= now { Some(req) } else { None }
    }

    /// `catch_up`, which looks at the fronts of the slots, each at most once, and at none where there are no timers.
    pub fn catch_up_counted<L: Ledger>(&mut self, now: u32, looks: &mut Looks<L>)
        ensures same { self.new ≡ self.old }
        ensures looked { looks.new ≤ looks.old + 256 }
        ensures idle { length self.old ≡ 0 → looks.new ≡ looks.old }
    {
        if self.deadlines.is_empty() {
            return;
        }
        if now < self.soonest {
            return;
        }
        self.soonest = bound_by(least(&self.slots, self.soonest, looks));
    }

    /// After timers ran out or were dropped: where one could be due at `now`, finds the least deadline, below which `due` then
    /// needs no look. All timers stay.
    pub fn catch_up(&mut self, now: u32)
        ensures { self.new ≡ self.old }
    {
        catch_up_by::<Brand>(self, now, Blank::new(1));
    }
}

/// `arm_counted`, uncounted.
fn arm_by<L: Ledger>(timers: &mut Timers, req: Req, at: u32, blank: Blank) -> Result<(), Memory>
    requires name { blank.name ≡ L.name }
    requires parts { blank.parts ≡ L.parts }
    requires some { 0 < blank.parts }
    ensures ok { OnOk result (deadline_at timers.new ≡ armed (deadline_at timers.old) req at) }
    ensures err { OnErr result (deadline_at timers.new ≡ deadline_at timers.old) }
{
    let mut looks = Looks::<L>::new(blank);
    timers.arm_counted(req, at, &mut looks)
}

/// `drop_counted`, uncounted.
fn drop_by<L: Ledger>(timers: &mut Timers, req: Req, blank: Blank) -> bool
    requires name { blank.name ≡ L.name }
    requires parts { blank.parts ≡ L.parts }
    requires some { 0 < blank.parts }
    ensures there { IsTrue result ↔ IsSome (deadline_at timers.old req) }
    ensures dropped { deadline_at timers.new ≡ dropped (deadline_at timers.old) req }
    ensures fewer { IsTrue result → length timers.new + 1 ≡ length timers.old }
{
    let mut looks = Looks::<L>::new(blank);
    timers.drop_counted(req, &mut looks)
}

/// `due_counted`, uncounted.
fn due_by<L: Ledger>(timers: &Timers, now: u32, blank: Blank) -> Option<Req>
    requires name { blank.name ≡ L.name }
    requires parts { blank.parts ≡ L.parts }
    requires some { 0 < blank.parts }
    ensures { IsFirstDue (deadline_at timers.now) now result }
{
    let mut looks = Looks::<L>::new(blank);
    timers.due_counted(now, &mut looks)
}

/// `catch_up_counted`, uncounted.
fn catch_up_by<L: Ledger>(timers: &mut Timers, now: u32, blank: Blank)
    requires name { blank.name ≡ L.name }
    requires parts { blank.parts ≡ L.parts }
    requires some { 0 < blank.parts }
    ensures { timers.new ≡ timers.old }
{
    let mut looks = Looks::<L>::new(blank);
    timers.catch_up_counted(now, &mut looks);
}

impl TimerSet for Timers {
    ghost deadline = { deadline_at };

    fn arm(&mut self, req: Req, at: u32) -> Result<(), Memory> {
        arm_by::<Brand>(self, req, at, Blank::new(1))
    }

    fn drop_timer(&mut self, req: Req) -> bool
        ensures there { IsTrue result ↔ IsSome (deadline_at self.old req) }
        ensures dropped { deadline_at self.new ≡ dropped (deadline_at self.old) req }
        ensures fewer { IsTrue result → length self.new + 1 ≡ length self.old }
    {
        drop_by::<Brand>(self, req, Blank::new(1))
    }

    fn due(&self, now: u32) -> Option<Req> {
        due_by::<Brand>(self, now, Blank::new(1))
    }
}
