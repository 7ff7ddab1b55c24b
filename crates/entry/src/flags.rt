//! The flags byte of an entry.
ghost use Rattle.std.specs.Prelude.{⊤, [], ◌∷◌, codes};

use bitflags::{Flag, Flags, bitflag_items};

/// The supported flags of an entry: `IO_DRAIN` (bit 1), `IO_LINK` (bit 2) and `IO_HARDLINK` (bit 3) of io_uring_enter(2).
/// It can hold any bits; that an entry has those of its row alone is the invariant of `Sqe`. It has no model, since its table is lent as
/// a constant, where the kit takes no type with one: contracts see its number by `bits_of`.
#[derive(Clone, Copy, PartialEq, Eq, Debug)]
pub struct SqeFlags(u8);

bitflag_items! {
    impl SqeFlags: u8 {
        const IO_DRAIN = 2;
        const IO_LINK = 4;
        const IO_HARDLINK = 8;
    }
}

impl Flags for SqeFlags {
    type Bits = u8;

    ghost exact = { ⊤ };

    ghost table = { (codes "IO_DRAIN", 2) ∷ (codes "IO_LINK", 4) ∷ (codes "IO_HARDLINK", 8) ∷ [] };

    ghost set_of = { λ f. f.0 };

    fn flags<'a>() -> &'a [Flag<SqeFlags>] {
        SqeFlags::FLAGS
    }

    fn bits(&self) -> u8 {
        self.0
    }

    fn from_bits_retain(bits: u8) -> SqeFlags {
        SqeFlags(bits)
    }
}
