//! What C holds.
ghost use Rattle.std.specs.Prelude.{◌≡◌, false, Some, None, MatchOption};
ghost use Rattle.ring_c.specs.Slots.{held};

use crate::inside::Inside;
use crate::parts::Parts;
use crate::slot::Slot;
use std::alloc::Global;
use std::mem::replace;

/// What C holds of a pass, or of a report: a pointer that only this library follows, whether it leads to something, and the stamp
/// of the board. All zero it leads to nothing.
#[repr(C)]
pub struct Handle {
    slot: Slot,
    is_open: u64,
    stamp: u64,
    ghost tied: { is_open ≡ held slot.inside },
}

impl Handle {
    /// The stamp of its board.
    pub(crate) fn stamp(&self) -> u64
        ensures { result ≡ self.now.stamp }
    {
        self.stamp
    }

    /// Whether it leads to something.
    pub(crate) fn is_open(&self) -> bool
        ensures { result ≡ false → self.now.slot.inside ≡ None }
    {
        self.is_open != 0
    }

    /// Takes what it leads to. Then it leads to nothing.
    pub(crate) fn take(&mut self, alloc: Global) -> Option<Box<Inside>>
        ensures old { MatchOption result (self.old.slot.inside ≡ None) (λ b. self.old.slot.inside ≡ Some b.value) }
        ensures new { self.new.slot.inside ≡ None }
        ensures stamp { self.new.stamp ≡ self.old.stamp }
    {
        if self.is_open == 0 {
            return None;
        }
        let slot = replace(&mut self.slot, Slot::empty(alloc));
        self.is_open = 0;
        Some(slot.into_parts().into_box())
    }

    /// It leads to this from now on.
    pub(crate) fn put(&mut self, inside: Box<Inside>)
        ensures new { self.new.slot.inside ≡ Some inside.value }
        ensures stamp { self.new.stamp ≡ self.old.stamp }
    {
        self.slot = Slot::of_parts(Parts::of(inside));
        self.is_open = 1;
    }

    /// It leads to this from now on, of the board with this stamp.
    pub(crate) fn open(&mut self, inside: Box<Inside>, stamp: u64)
        ensures new { self.new.slot.inside ≡ Some inside.value }
        ensures stamp { self.new.stamp ≡ stamp }
    {
        self.put(inside);
        self.stamp = stamp;
    }
}
