//! What the flags of an entry ask for.
ghost use Rattle.std.specs.Prelude.{◌≡◌};
ghost use Rattle.entry.specs.Entry.{drains, links_hard, links_soft};

use crate::flags::SqeFlags;
use crate::sqe::Sqe;
use bitflags::Flags;

impl Sqe {
    /// The entry waits for all earlier ones of its ring, and the later ones wait for it.
    pub fn drains(&self) -> bool
        ensures { result ≡ drains self.now }
    {
        self.flags().contains(SqeFlags::IO_DRAIN)
    }

    /// The next entry waits for this one, and is severed where it fails.
    pub fn links_soft(&self) -> bool
        ensures { result ≡ links_soft self.now }
    {
        self.flags().contains(SqeFlags::IO_LINK)
    }

    /// The next entry waits for this one, and continues where it fails.
    pub fn links_hard(&self) -> bool
        ensures { result ≡ links_hard self.now }
    {
        self.flags().contains(SqeFlags::IO_HARDLINK)
    }
}
