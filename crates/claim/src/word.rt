//! A claim word, and its 64 bits.
ghost use Rattle.std.specs.Prelude.{not, ◌≡◌, ◌<◌, ℕ, ℤ, IfSome, IsNone, IsTrue, ◌↔◌, nat_le};
ghost use Rattle.std.specs.Int.{w32, cast_signed, cast_unsigned};
ghost use Rattle.claim.specs.Claim.{Claim, allows, cause_of, fits, is_refused, packed, tag_bits, tag_number};

use crate::tag::{Cause, Tag};
use std::fmt;
use std::marker::Model;

/// What a cell's word says of its request. The cause is 0 unless the tag is Done. The payload is the deadline of an Armed
/// request, the 32 bits of a Done one's reply, and 0 otherwise. The generation has 24 bits.
#[derive(Clone, Copy, PartialEq, Eq, Debug)]
pub struct ClaimWord {
    pub tag: Tag,
    pub cause: u8,
    pub generation: u32,
    pub payload: u32,
}

impl Model for ClaimWord {
    ghost use Rattle.std.specs.Prelude.{IsTrue};
    ghost use Rattle.claim.specs.Claim.{Claim, fits};

    ghost Value = { Claim };

    ghost view = { λ w. record { tag = w.tag; cause = w.cause; generation = w.generation; payload = w.payload } };

    ghost invariant = { λ w. IsTrue (fits (record { tag = w.tag; cause = w.cause; generation = w.generation; payload = w.payload })) };

    ghost inverse = { λ c. record { tag = c.tag; cause = c.cause; generation = c.generation; payload = c.payload } };
}

/// One bit of the cause of a Done word says that the reply fails.
const FAILS: u8 = 8;

/// The first number that is no generation: a generation has 24 bits.
pub const GENERATIONS: u32 = 0x100_0000;

impl fmt::Display for ClaimWord {
    ghost use Rattle.std.specs.Prelude.{Some};
    ghost use Rattle.claim.specs.Claim.{claim_text};

    ghost output = { λ w. Some (claim_text w) };

    fn fmt<W: fmt::Write>(&self, f: &mut fmt::Formatter<W>) -> fmt::Result {
        let (generation, cause, payload, reply) = (
            self.generation,
            self.cause,
            self.payload,
            self.reply(),
        );
        match self.tag {
            Tag::Empty => write!(f, "EMPTY generation {generation}"),
            Tag::Held => write!(f, "HELD generation {generation}"),
            Tag::Ready => write!(f, "READY generation {generation}"),
            Tag::Running => write!(f, "RUNNING generation {generation}"),
            Tag::Armed => write!(f, "ARMED generation {generation} deadline {payload}"),
            Tag::Done => write!(
                f,
                "DONE generation {generation} cause {cause} reply {reply}"
            ),
        }
    }
}

impl ClaimWord {
    /// The word of a cell without a request. The next one that it gets has this generation.
    pub fn empty(generation: u32) -> ClaimWord
        requires { generation < GENERATIONS }
        ensures { result ≡ record { tag = Tag.Empty; cause = 0; generation = generation; payload = 0 } }
    {
        ClaimWord {
            tag: Tag::Empty,
            cause: 0,
            generation,
            payload: 0,
        }
    }

    /// The request of this generation was submitted, and waits.
    pub fn held(generation: u32) -> ClaimWord
        requires { generation < GENERATIONS }
        ensures { result ≡ record { tag = Tag.Held; cause = 0; generation = generation; payload = 0 } }
    {
        ClaimWord {
            tag: Tag::Held,
            cause: 0,
            generation,
            payload: 0,
        }
    }

    /// A worker may begin it.
    pub fn ready(generation: u32) -> ClaimWord
        requires { generation < GENERATIONS }
        ensures { result ≡ record { tag = Tag.Ready; cause = 0; generation = generation; payload = 0 } }
    {
        ClaimWord {
            tag: Tag::Ready,
            cause: 0,
            generation,
            payload: 0,
        }
    }

    /// A worker runs it.
    pub fn running(generation: u32) -> ClaimWord
        requires { generation < GENERATIONS }
        ensures { result ≡ record { tag = Tag.Running; cause = 0; generation = generation; payload = 0 } }
    {
        ClaimWord {
            tag: Tag::Running,
            cause: 0,
            generation,
            payload: 0,
        }
    }

    /// Its timer runs until this tick of the clock.
    pub fn armed(generation: u32, deadline: u32) -> ClaimWord
        requires { generation < GENERATIONS }
        ensures { result ≡ record { tag = Tag.Armed; cause = 0; generation = generation; payload = deadline } }
    {
        ClaimWord {
            tag: Tag::Armed,
            cause: 0,
            generation,
            payload: deadline,
        }
    }

    /// It was answered with this reply.
    pub fn done(generation: u32, cause: Cause, fails: bool, reply: i32) -> ClaimWord
        requires { generation < GENERATIONS }
        ensures { result ≡ record { tag = Tag.Done; cause = cause_of cause fails; generation = generation; payload = cast_unsigned w32 reply } }
    {
        ClaimWord {
            tag: Tag::Done,
            cause: cause.number(fails),
            generation,
            payload: reply.cast_unsigned(),
        }
    }

    /// The reply of a Done word: its payload, read as signed.
    pub fn reply(&self) -> i32
        ensures { result ≡ cast_signed w32 self.now.payload }
    {
        self.payload.cast_signed()
    }

    /// Whether the reply of a Done word is a failure.
    pub fn has_failed(&self) -> bool
        ensures { result ≡ nat_le 8 self.now.cause }
    {
        self.cause >= FAILS
    }
}

/// The word's tag, if its cause and payload are such as this tag may have. The test that most words pass comes first, since
/// this is on every request's path: nothing but a tag below 4 and the generation.
#[inline(always)]
fn tag_of(word: u64) -> Option<Tag>
    ensures refused { IsNone result ↔ IsTrue (is_refused word) }
    ensures tag { IfSome result (λ t. tag_number t ≡ tag_bits word) }
{
    let has_tag_alone = ((word >> 2) % 64 == 0) & (word >> 32 == 0);
    if has_tag_alone {
        return Some(match word % 4 {
            0 => Tag::Empty,
            1 => Tag::Held,
            2 => Tag::Ready,
            _ => Tag::Running,
        });
    }
    let names_event = (word >> 4) % 8 != 0;
    if word % 16 == 5 && names_event {
        Some(Tag::Done)
    } else if word % 256 == 4 {
        Some(Tag::Armed)
    } else {
        None
    }
}

/// The word's 64 bits.
#[inline(always)]
pub fn pack(word: ClaimWord) -> u64
    ensures packed { result ≡ packed word }
    ensures fits { IsTrue (fits word) }
{
    let low = u64::from(word.tag.number()) + (u64::from(word.cause) << 4);
    low + (u64::from(word.generation) << 8) + (u64::from(word.payload) << 32)
}

/// What the 64 bits say: None for a tag above 5, a cause that is not of the list, or a payload that must be 0 and isn't.
#[inline(always)]
pub fn unpack(word: u64) -> Option<ClaimWord>
    ensures refused { IsNone result ↔ IsTrue (is_refused word) }
    ensures packed { IfSome result (λ c. packed c ≡ word) }
    ensures fits { IfSome result (λ c. IsTrue (fits c)) }
    ensures again { (c : Claim) → IsTrue (fits c) → packed c ≡ word → result ≡ Some c }
{
    let tag = tag_of(word)?;
    Some(ClaimWord {
        tag,
        cause: ((word >> 4) % 16) as u8,
        generation: ((word >> 8) % u64::from(GENERATIONS)) as u32,
        payload: (word >> 32) as u32,
    })
}
