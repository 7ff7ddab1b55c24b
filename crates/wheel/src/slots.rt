//! The slots of a wheel.
ghost use Rattle.std.specs.Prelude.{◌≡◌, ℕ, ◌+◌, ◌≢◌, [], true, None, Some, OnOk, OnErr};
ghost use Rattle.wheel.specs.{armed, dropped, InOrder, deadline_in, front_of, no_timers, slot_list};

use crate::error::Memory;
use crate::looks::Looks;
use crate::set::TimerSet;
use crate::sorted::{SortedTimers, Timer};
use history::Req;
use std::alloc::Global;
use std::array;
use std::marker::Model;
use std::sync::ledger::Ledger;

/// The slots of a wheel, each a list of timers in the order of their deadlines. Contracts see the lists.
#[derive(Drop)]
pub struct Slots {
    slots: [SortedTimers; 256],
}

impl Model for Slots {
    ghost use Rattle.std.specs.Prelude.{List};
    ghost use Rattle.wheel.specs.declared.sorted.Timer.{Timer};

    ghost Value = { List (List Timer) };

    ghost view = { λ s. s.slots };
}

impl Slots {
    /// Slots without timers.
    pub fn new(alloc: Global) -> Slots
        ensures { (s : ℕ) → slot_list result s ≡ no_timers }
    {
        Slots {
            slots: array::from_fn(
                |_slot| -> SortedTimers
                    ensures { result ≡ [] }
                { SortedTimers::new(alloc) },
            ),
        }
    }

    /// The first timer of a slot and its deadline. No other call reads a slot through a shared reference.
    pub fn front<L: Ledger>(&self, slot: u8, looks: &mut Looks<L>) -> Option<(Req, u32)>
        ensures first { result ≡ front_of (slot_list self.now slot) }
        ensures sorted { InOrder (slot_list self.now slot) }
        ensures looked { looks.new ≡ looks.old + 1 }
    {
        looks.look();
        match self.slots[slot as usize].first() {
            None => None,
            Some(timer) => Some((timer.req, timer.at)),
        }
    }

    /// Arms a timer in a slot. The request's old deadline there, if it has one, is forgotten; none is sought where it is absent.
    /// Want of memory changes nothing.
    pub fn arm<L: Ledger>(
        &mut self,
        slot: u8,
        timer: Timer,
        is_absent: bool,
        looks: &mut Looks<L>,
    ) -> Result<(), Memory>
        requires { is_absent ≡ true → deadline_in (slot_list self.old slot) timer.req ≡ None }
        ensures ok { OnOk result (deadline_in (slot_list self.new slot) ≡ armed (deadline_in (slot_list self.old slot)) timer.req timer.at) }
        ensures err { OnErr result (deadline_in (slot_list self.new slot) ≡ deadline_in (slot_list self.old slot)) }
        ensures others { (s : ℕ) → s ≢ slot → slot_list self.new s ≡ slot_list self.old s }
        ensures looked { looks.new ≡ looks.old + 1 }
    {
        looks.look();
        if is_absent {
            self.slots[slot as usize].add(timer)
        } else {
            self.slots[slot as usize].arm(timer.req, timer.at)
        }
    }

    /// Forgets a timer that is in a slot.
    pub fn drop_timer<L: Ledger>(&mut self, slot: u8, timer: Timer, looks: &mut Looks<L>)
        requires { deadline_in (slot_list self.old slot) timer.req ≡ Some timer.at }
        ensures dropped { deadline_in (slot_list self.new slot) ≡ dropped (deadline_in (slot_list self.old slot)) timer.req }
        ensures others { (s : ℕ) → s ≢ slot → slot_list self.new s ≡ slot_list self.old s }
        ensures looked { looks.new ≡ looks.old + 1 }
    {
        looks.look();
        self.slots[slot as usize].drop_at(timer);
    }
}
