//! Where the search of a cancel begins.
ghost use Rattle.std.specs.Prelude.{◌≡◌, ℕ, ◌+◌, ◌-◌, ◌<◌, false};
ghost use Rattle.claim.specs.declared.word.TheConstants.{GENERATIONS};
ghost use Rattle.history.specs.declared.req.Req.{Req as Request};
ghost use Rattle.history.specs.History.{IsReplied, phase};
ghost use Rattle.steps.specs.{IsCell, cells_in, request_at, events_of, IsSameSeat, Looks};
ghost use Rattle.work.specs.declared.cancel.Wanted.{Wanted as WantedOf};
ghost use Rattle.work.specs.{AreMarked, ArePast, IsGridOf, Cancels, FewerSteps, IsEarlier, IsFirst, StepsIn, WentOn, target_in};

use crate::cancel::{Target, earlier, oldest};
use crate::grid::Grid;
use crate::marks::Marks;
use history::Req;
use steps::claims::{Standing, stands_at};
use steps::{TableSeat, Words, seat};

/// Whether the earlier request has no reply yet, as its claim word tells.
fn is_open(words: &Words, seat: &mut TableSeat, target: Target) -> bool
    requires cancels { (c : Request) × (w : WantedOf) × Cancels words.now.table_id seat.old c w × IsEarlier words.now.table_id seat.old c target }
    ensures seat { IsSameSeat seat.old seat.new × (seat.new.me.1 ≡ seat.old.me.1) }
    ensures looks { Looks seat.old.me.0 seat.new.me.0 }
    ensures replied { result ≡ false → IsReplied (phase (events_of seat.new.me.0.seen) (target_in seat.old target)) }
    ensures steps { StepsIn seat.old.me.0 seat.new.me.0 target.cell 1 1 }
{
    let word = seat::look(words, seat, target.cell);
    match stands_at(word, target.generation) {
        Standing::Idle | Standing::Running => true,
        Standing::Over => false,
    }
}

/// The first of these earlier requests of the ring that hasn't replied, where all before them have. That of the cancel itself where
/// all have.
fn first_open(words: &Words, seat: &mut TableSeat, grid: &Grid, req: Req, from: u64) -> u64
    requires cancels { (w : WantedOf) × Cancels words.now.table_id seat.old req w }
    requires grid { IsGridOf words.now.table_id grid.now seat.old.me.0 }
    requires cell { (x : ℕ) × (g : ℕ) × (g < GENERATIONS) × IsCell grid.now x × (request_at grid.now x g ≡ req) }
    requires past { ArePast seat.old.me.0.seen req.ring from }
    requires near { (req.k < from + cells_in grid.now req.ring) × (req.k < from + 1024) }
    ensures seat { IsSameSeat seat.old seat.new × (seat.new.me.1 ≡ seat.old.me.1) }
    ensures went { WentOn seat.old.me.0 seat.new.me.0 }
    ensures first { IsFirst grid.now seat.new.me.0 req result }
    ensures steps { FewerSteps seat.old.me.0 seat.new.me.0 req 1 (result + 1 - from) }
{
    for k in from..req.k {
        let target = earlier(grid, req, k);
        if is_open(words, seat, target) {
            return k;
        }
    }
    req.k
}

/// The first earlier request of the ring that hasn't replied, as the worker has seen by now. Its mark is set there.
pub(crate) fn advance(
    words: &Words,
    seat: &mut TableSeat,
    grid: &Grid,
    req: Req,
    marks: &mut Marks,
) -> u64
    requires cancels { (w : WantedOf) × Cancels words.now.table_id seat.old req w }
    requires grid { IsGridOf words.now.table_id grid.now seat.old.me.0 }
    requires cell { (x : ℕ) × (g : ℕ) × (g < GENERATIONS) × IsCell grid.now x × (request_at grid.now x g ≡ req) }
    requires marked { AreMarked marks.old seat.old.me.0.seen }
    ensures seat { IsSameSeat seat.old seat.new × (seat.new.me.1 ≡ seat.old.me.1) }
    ensures went { WentOn seat.old.me.0 seat.new.me.0 }
    ensures first { IsFirst grid.now seat.new.me.0 req result }
    ensures marked { AreMarked marks.new seat.new.me.0.seen }
    ensures steps { FewerSteps seat.old.me.0 seat.new.me.0 req 1 (cells_in grid.now req.ring - (req.k - result)) }
{
    let from = oldest(grid, req).max(marks.of(req.ring));
    let first = first_open(words, seat, grid, req, from);
    marks.set(req.ring, first);
    first
}
