//! How far the requests of each ring have replied.
ghost use Rattle.std.specs.Prelude.{◌≡◌, ◌⊎◌, ℕ};
ghost use Rattle.work.specs.Passes.{mark_of};

use std::alloc::{AllocError, Global};

/// The most rings of a board.
const RINGS: usize = 16;

/// For each ring a number: as its worker has seen, each request of the ring before it has replied. They lie on the heap, since each
/// call of a worker moves what the worker has.
#[derive(Drop)]
pub(crate) struct Marks {
    numbers: Vec<u64>,
}

impl Marks {
    /// Those of a worker that has seen no reply.
    pub fn new(alloc: Global) -> Result<Marks, AllocError> {
        let numbers = Vec::from_elem(alloc, 0u64, RINGS)?;
        Ok(Self { numbers })
    }

    /// Forgets all.
    pub fn reset(&mut self)
        ensures { (i : ℕ) → mark_of self.new i ≡ 0 }
    {
        self.numbers.fill(0);
    }

    /// The mark of the ring.
    pub fn of(&self, ring: u16) -> u64
        ensures { result ≡ mark_of self.now ring }
    {
        match self.numbers.get(usize::from(ring)) {
            Some(&number) => number,
            None => 0,
        }
    }

    /// Sets the mark of the ring.
    pub fn set(&mut self, ring: u16, number: u64)
        ensures { (i : ℕ) → (mark_of self.new i ≡ mark_of self.old i) ⊎ ((i ≡ ring) × (mark_of self.new i ≡ number)) }
    {
        let i = usize::from(ring);
        if i < self.numbers.len() {
            self.numbers[i] = number;
        }
    }
}
