//! The loops over entries and claim words that are timed. Each goes round sixteen values, so that no work can be done before it.
use crate::machine::nanos_since;
use anyhow::Result;
use claim::{Cause, ClaimWord, pack, unpack};
use entry::{Op, Sqe};
use prep::{read, with_flags, with_user_data};
use std::time::{Clock, Instant};

/// What is timed.
#[derive(Clone, Copy)]
pub(crate) enum Loop {
    Copy,
    OfBytes,
    ToBytes,
    Pack,
    Unpack,
}

/// All of them, with their names.
pub(crate) const LOOPS: [(Loop, &str); 5] = [
    (Loop::Copy, "copy of 64 bytes"),
    (Loop::OfBytes, "copy and of_bytes of a READ"),
    (Loop::ToBytes, "to_bytes of a READ"),
    (Loop::Pack, "read of a word and pack"),
    (Loop::Unpack, "read of a word and unpack"),
];

/// A loop, and what it goes round: sixteen READs and their bytes, and words of Done requests and their bits.
#[derive(Drop)]
pub(crate) struct Rounds {
    kind: Loop,
    sqes: [Sqe; 16],
    bytes: [[u8; 64]; 16],
    words: [ClaimWord; 16],
    bits: [u64; 16],
}

impl Rounds {
    /// Those of this loop.
    pub fn new(kind: Loop) -> Rounds {
        let mut values = Rounds {
            kind,
            sqes: [read(0, 0, 0); 16],
            bytes: [[0; 64]; 16],
            words: [ClaimWord::empty(0); 16],
            bits: [0; 16],
        };
        for i in 0..16usize {
            let sqe = with_flags(read(2 * i as i32, 64 + i as u32, 0), 4);
            let sqe = with_user_data(sqe, 1000 + i as u64);
            let word = ClaimWord::done(i as u32, Cause::Reply, i % 2 == 1, i as i32);
            values.sqes[i] = sqe;
            values.bytes[i] = sqe.to_bytes();
            values.words[i] = word;
            values.bits[i] = pack(word);
        }
        values
    }

    /// Puts the bytes of an entry into a place at each turn, and sums up what is there.
    fn go_round_entries(&self, times: usize) -> u64 {
        let (mut places, mut sum) = ([[0; 64]; 16], 0u64);
        for n in 0..times {
            places[(n / 3) % 16] = match self.kind {
                Loop::ToBytes => self.sqes[n % 16].to_bytes(),
                _ => self.bytes[n % 16],
            };
            sum = sum.wrapping_add(match self.kind {
                Loop::OfBytes => said_by(&places[(n / 3) % 16]),
                _ => u64::from(places[n % 16][32]),
            });
        }
        for place in &places {
            for byte in place {
                sum = sum.wrapping_mul(31).wrapping_add(u64::from(*byte));
            }
        }
        sum
    }

    /// Packs a word at each turn, or unpacks one, and sums up what it is.
    fn go_round_words(&self, times: usize) -> u64 {
        let mut sum = 0u64;
        for n in 0..times {
            let word = match self.kind {
                Loop::Pack => pack(self.words[n % 16]),
                _ => bits_of(self.bits[n % 16]),
            };
            sum = sum.rotate_left(1) ^ word;
        }
        sum
    }

    /// Goes round this many times. How many nanoseconds that took.
    pub fn round<R: Clock>(&self, rt: &R, units: u64) -> Result<u64> {
        let start = Instant::now(rt)?;
        let sum = match self.kind {
            Loop::Pack | Loop::Unpack => self.go_round_words(units as usize),
            _ => self.go_round_entries(units as usize),
        };
        let nanos = nanos_since(rt, start)?;
        // The test keeps the loop's work: a compiler can't know that the sum isn't 0.
        Ok(if sum == 0 { 0 } else { nanos })
    }
}

/// Reads the READ that has these bytes.
fn said_by(bytes: &[u8; 64]) -> u64 {
    let sqe = Sqe::of_bytes(bytes);
    match sqe.op() {
        Op::Read { len, .. } => sqe.user_data().wrapping_add(u64::from(len)),
        _ => 0,
    }
}

/// Unpacks these bits.
fn bits_of(bits: u64) -> u64 {
    let Some(word) = unpack(bits) else {
        return 0;
    };
    let low = u64::from(word.payload ^ word.generation);
    low ^ u64::from(word.cause ^ word.tag.number())
}
