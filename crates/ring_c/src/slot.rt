//! The pointer in a handle.
ghost use Rattle.std.specs.Prelude.{◌≡◌, Option, Some, None};
ghost use Rattle.ring_c.specs.declared.inside.Inside.{Inside};
ghost use Rattle.ring_c.specs.Slots.{slot_owns};

use crate::inside::Inside;
use crate::parts::Parts;
use std::alloc::Global;
use std::marker::Model;
use std::ptr::null_mut;

/// A pointer to a box, or nothing.
#[repr(C)]
#[derive(Drop)]
pub struct Slot {
    ptr: *mut u8,
    alloc: Global,
    pub ghost inside: { Option Inside },
}

impl Model for Slot {
    ghost also_owns = { λ s. slot_owns s.alloc s.ptr s.inside };
}

impl Slot {
    /// A slot that leads to nothing.
    pub(crate) fn empty(alloc: Global) -> Slot
        ensures { result.inside ≡ None }
    {
        let ptr = null_mut();
        Slot { ptr, alloc }
    }

    /// A slot that leads to the box of these parts.
    pub(crate) fn of_parts(parts: Parts<Inside, Global>) -> Slot
        ensures { result.inside ≡ Some parts.value }
    {
        let Parts { ptr, alloc } = parts;
        Slot {
            ptr: ptr as *mut u8,
            alloc,
        }
    }

    /// The parts of the box that it leads to.
    pub(crate) fn into_parts(self) -> Parts<Inside, Global>
        requires { (x : Inside) × (self.inside ≡ Some x) }
        ensures { Some result.value ≡ self.inside }
    {
        let Slot { ptr, alloc } = self;
        Parts {
            ptr: ptr as *mut Inside,
            alloc,
        }
    }
}

unsafe impl Send for Slot {}
