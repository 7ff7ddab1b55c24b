//! The word of a cell that notes what others need of its request.
ghost use Rattle.std.specs.Prelude.{◌≡◌, ◌<◌, ℕ, ◌%◌, IsTrue, ◌+◌, ◌*◌};
ghost use Rattle.claim.specs.Facts.{Facts, bit, fits_facts, packed_facts};

use std::marker::Model;

/// What others need of a cell's request: its generation (24 bits), the number of its row in the table of opcodes (4 bits), the
/// flags of its entry, whether it ends its batch, whether it is a TIMEOUT with ETIME_SUCCESS, and 31 bits more: a timer's
/// ticks, or once the request is reaped 1 where its reply was a failure.
#[derive(Clone, Copy)]
pub struct FactsWord {
    pub generation: u32,
    pub row: u8,
    pub drains: bool,
    pub links_soft: bool,
    pub links_hard: bool,
    pub last: bool,
    pub etime_success: bool,
    pub payload: u32,
}

impl Model for FactsWord {
    ghost use Rattle.std.specs.Prelude.{IsTrue};
    ghost use Rattle.claim.specs.Facts.{Facts, fits_facts};

    ghost Value = { Facts };

    ghost view = { λ w. record { generation = w.generation; row = w.row; drains = w.drains; links_soft = w.links_soft; links_hard = w.links_hard; last = w.last; etime_success = w.etime_success; payload = w.payload } };

    ghost invariant = { λ w. IsTrue (fits_facts (record { generation = w.generation; row = w.row; drains = w.drains; links_soft = w.links_soft; links_hard = w.links_hard; last = w.last; etime_success = w.etime_success; payload = w.payload })) };

    ghost inverse = { λ f. record { generation = f.generation; row = f.row; drains = f.drains; links_soft = f.links_soft; links_hard = f.links_hard; last = f.last; etime_success = f.etime_success; payload = f.payload } };
}

/// Below this stand the parts that are the request's own for good, and from it on the payload.
const PAYLOAD: u64 = 0x2_0000_0000;

/// The word's 64 bits.
#[inline(always)]
pub fn pack_facts(word: FactsWord) -> u64
    ensures packed { result ≡ packed_facts word }
    ensures fits { IsTrue (fits_facts word) }
{
    let low = u64::from(word.generation) + (u64::from(word.row) << 24);
    let links = (u64::from(word.drains) << 28)
        + (u64::from(word.links_soft) << 29)
        + (u64::from(word.links_hard) << 30);
    let ends = (u64::from(word.last) << 31) + (u64::from(word.etime_success) << 32);
    low + links + ends + (u64::from(word.payload) << 33)
}

/// The same word with another payload: whether the reply was a failure.
pub fn with_outcome(word: u64, failed: bool) -> u64
    ensures { result ≡ word % 8589934592 + 8589934592 * bit failed }
{
    word % PAYLOAD + (u64::from(failed) << 33)
}

/// What the 64 bits say.
#[inline(always)]
pub fn unpack_facts(word: u64) -> FactsWord
    ensures packed { packed_facts result ≡ word }
    ensures fits { IsTrue (fits_facts result) }
{
    FactsWord {
        generation: (word % 0x100_0000) as u32,
        row: ((word >> 24) % 16) as u8,
        drains: (word >> 28) % 2 == 1,
        links_soft: (word >> 29) % 2 == 1,
        links_hard: (word >> 30) % 2 == 1,
        last: (word >> 31) % 2 == 1,
        etime_success: (word >> 32) % 2 == 1,
        payload: (word >> 33) as u32,
    }
}
