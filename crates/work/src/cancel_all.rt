//! The cancel_all of a cancel of all its matches over the earlier requests of its ring.
ghost use Rattle.std.specs.Prelude.{◌≡◌, ℕ, ◌<◌, ◌≤◌, ◌*◌, ◌-◌, ◌++◌, [], ◌∷◌, true, List, length, vec_capacity};
ghost use Rattle.claim.specs.declared.word.TheConstants.{GENERATIONS};
ghost use Rattle.history.specs.History.{hit, nothing};
ghost use Rattle.steps.specs.{IsCell, cells_in, request_at, events_of, IsSameSeat};
ghost use Rattle.work.specs.{IsGridOf, IsSpare, Cancels, FewSteps, IsFirst, DidCancelAll};

use crate::cancel::{Tried, Wanted, earlier, try_one};
use crate::task::Task;
use history::Req;
use steps::TableSeat;

/// Adds a request to the list, which has room for it.
pub(crate) fn note(took: &mut Vec<Req>, req: Req)
    requires room { length took.old.items < vec_capacity took.old }
    ensures items { took.new.items ≡ took.old.items ++ req ∷ [] }
    ensures capacity { vec_capacity took.old ≤ vec_capacity took.new }
{
    let Ok(()) = took.push(req) else {
        unreachable!()
    };
}

/// Goes over the earlier requests of the ring from this one on, in their order, and ends each that the cancel is meant for and that
/// isn't running. Notes which it ended.
pub(crate) fn cancel_all(
    task: &Task<'_>,
    seat: &mut TableSeat,
    first: u64,
    wanted: Wanted,
    took: &mut Vec<Req>,
)
    requires cancels { Cancels task.now.words.now.table_id seat.old task.now.req wanted × (wanted.all ≡ true) × (hit (events_of seat.old.me.0.seen) task.now.req ≡ nothing) }
    requires grid { IsGridOf task.now.words.now.table_id task.now.grid.now seat.old.me.0 }
    requires cell { (x : ℕ) × (g : ℕ) × (g < GENERATIONS) × IsCell task.now.grid.now x × (request_at task.now.grid.now x g ≡ task.now.req) }
    requires first { IsFirst task.now.grid.now seat.old.me.0 task.now.req first }
    requires spare { IsSpare task.now.grid.now took.old.items (vec_capacity took.old) }
    ensures seat { IsSameSeat seat.old seat.new × (seat.new.me.1 ≡ seat.old.me.1) }
    ensures canceled { DidCancelAll seat.old.me.0 seat.new.me.0 task.now.req took.new.items }
    ensures steps { FewSteps seat.old.me.0 seat.new.me.0 3 (5 * (task.now.req.k - first)) }
    ensures capacity { vec_capacity took.old ≤ vec_capacity took.new }
    ensures few { (length took.new.items < cells_in task.now.grid.now task.now.req.ring) × (length took.new.items < 1024) }
{
    let req = task.req;
    for k in first..req.k {
        let target = earlier(task.grid, req, k);
        match try_one(task.words, seat, target, wanted) {
            Tried::Took => note(took, Req { ring: req.ring, k }),
            Tried::Passed | Tried::Missed => {}
        }
    }
}
