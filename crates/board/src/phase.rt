//! Where a request stands, as its claim word tells.
ghost use Rattle.std.specs.Prelude.{◌≡◌, ℕ, ◌<◌, Bool, List, IsTrue};
ghost use Rattle.claim.specs.declared.word.TheConstants.{GENERATIONS};
ghost use Rattle.claim.specs.declared.tag.Tag.TheVariants.{Done};
ghost use Rattle.claim.specs.Claim.{fits, packed};
ghost use Rattle.steps.specs.declared.line.Line.{Line};
ghost use Rattle.history.specs.History.{Cause};
ghost use Rattle.steps.specs.{request_at, word_of, cause_bits, Shown};
ghost use Rattle.board.specs.Calls.{Stands, IsWord, IsPresent};

use claim::{ClaimWord, Tag, unpack};

/// Where a request stands.
#[derive(Clone, Copy, PartialEq, Eq, Debug)]
pub enum Phase {
    /// There is no such ring, or it wasn't submitted yet.
    Unborn,
    /// It waits for the poller.
    Held,
    /// It waits for a worker.
    Ready,
    /// A worker runs it.
    Running,
    /// Its timer runs until this tick of the clock.
    Armed(u32),
    /// It was answered with this result.
    Done(i32),
    /// It was answered, and its completion was taken.
    Gone,
}

/// The parts of a claim word of the table.
fn parts(word: u64) -> ClaimWord
    requires { IsWord word }
    ensures { IsTrue (fits result) × (packed result ≡ word) }
{
    let Some(claim) = unpack(word) else {
        unreachable!()
    };
    claim
}

/// Where the request of this generation stands, as the word of its cell tells.
pub(crate) fn told(word: u64, generation: u64) -> Phase
    requires { IsWord word }
    ensures stands { (K : List ℕ) (j : List Line) (x : ℕ) → Shown K j x word → Stands j (request_at K x generation) result }
    ensures present { IsPresent result → generation < GENERATIONS }
{
    let claim = parts(word);
    let now = u64::from(claim.generation);
    if generation < now {
        return Phase::Gone;
    }
    if now < generation {
        return Phase::Unborn;
    }
    match claim.tag {
        Tag::Empty => Phase::Unborn,
        Tag::Held => Phase::Held,
        Tag::Ready => Phase::Ready,
        Tag::Running => Phase::Running,
        Tag::Armed => Phase::Armed(claim.payload),
        Tag::Done => Phase::Done(claim.reply()),
    }
}

/// Whether the word tells of a reply that is a failure.
pub(crate) fn has_failed(word: u64) -> bool
    requires { IsWord word }
    ensures { (c : Cause) (f : Bool) (g p : ℕ) → g < GENERATIONS → p < 4294967296 → word ≡ word_of Done (cause_bits c f) g p → result ≡ f }
{
    parts(word).has_failed()
}
