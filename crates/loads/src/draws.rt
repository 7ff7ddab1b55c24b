//! Entries drawn at random.
ghost use Rattle.std.specs.Prelude.{◌<◌};

use crate::flow::Flow;
use crate::pipes::{PIPES, SHARED, STREAM};
use crate::replies::LATE;
use entry::Sqe;
use prep::{
    cancel, cancel_all, close, link_timeout, nop, poll_add, read, splice, timeout, timeout_count,
    timeout_remove, write,
};
use rand_core::{Rng, SeedableRng};
use rand_xoshiro::SplitMix64;

/// IOSQE_IO_LINK, IOSQE_IO_HARDLINK, both, or mostly none.
pub(crate) const LINKS: [u8; 8] = [0, 0, 0, 0, 4, 4, 8, 12];

/// ETIME_SUCCESS, as a flag of a TIMEOUT.
const SUCCESS: u32 = 32;

/// How many values a user_data has. Requests that have the same are canceled together.
pub(crate) const VALUES: u32 = 4;

/// Where entries are drawn from.
#[derive(Drop)]
pub(crate) struct Draws {
    random: SplitMix64,
}

impl Draws {
    /// Those of this seed.
    pub fn new(seed: u64) -> Draws {
        Draws {
            random: SplitMix64::seed_from_u64(seed),
        }
    }

    /// Any number.
    pub fn number(&mut self) -> u64 {
        self.random.next_u64()
    }

    /// A number below this one.
    pub fn below(&mut self, end: u32) -> u32
        requires { 0 < end }
        ensures { result < end }
    {
        (self.number() % u64::from(end)) as u32
    }

    /// A user_data.
    pub fn user_data(&mut self) -> u64 {
        u64::from(self.below(VALUES))
    }

    /// How many bytes a READ, a WRITE or a SPLICE asks for: now and then more than a pipe holds.
    fn length(&mut self) -> u32 {
        let most = if self.below(32) == 0 { 256 } else { 33 };
        self.below(most)
    }

    /// An end of a shared pipe, or of none: a read end or a write end; now and then the other one.
    fn shared_end(&mut self, is_write: bool) -> i32 {
        let pipe = SHARED + self.below(PIPES + 1 - SHARED);
        let is_odd = self.below(32) == 0;
        2 * pipe as i32 + i32::from(is_write != is_odd)
    }

    /// An end for a READ or a WRITE: that of the stream, where it may be used now, or a shared one.
    fn end(&mut self, flow: &Flow, is_write: bool) -> i32 {
        if flow.may_go_on(is_write) && self.below(2) == 0 {
            return if is_write { STREAM[0] } else { STREAM[3] };
        }
        self.shared_end(is_write)
    }

    /// A SPLICE: of the stream, or between any two shared pipes.
    fn splice(&mut self) -> Sqe {
        let len = self.length();
        if self.below(2) == 0 {
            return splice(STREAM[1], STREAM[2], len);
        }
        splice(self.shared_end(false), self.shared_end(true), len)
    }

    /// A LINK_TIMEOUT.
    pub fn link_timeout(&mut self) -> Sqe {
        link_timeout(u64::from(self.below(16)))
    }

    /// An entry that ends by itself.
    pub fn quick(&mut self) -> Sqe {
        match self.below(32) {
            0..6 => timeout(u64::from(self.below(16)), SUCCESS * self.below(2)),
            6..9 => cancel(self.user_data()),
            9 => cancel_all(self.user_data()),
            10 | 11 => timeout_remove(self.user_data()),
            12 => self.link_timeout(),
            13 => timeout(LATE + 1, 0),
            _ => nop(),
        }
    }

    /// An entry that may wait for what doesn't come, or rarely a CLOSE.
    pub fn slow(&mut self, flow: &Flow) -> Sqe {
        match self.below(1_024) {
            0..300 => read(self.end(flow, false), self.length(), 0),
            300..600 => write(self.end(flow, true), self.length(), 0),
            600..800 => self.splice(),
            800..900 => poll_add(self.below(2 * PIPES + 1) as i32, self.below(8)),
            900..1_022 => timeout_count(LATE, u64::from(self.below(4)), SUCCESS * self.below(2)),
            _ => close(2 * PIPES as i32 - 2 + self.below(3) as i32),
        }
    }
}
