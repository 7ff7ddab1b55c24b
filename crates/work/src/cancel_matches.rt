//! What a cancel ends, and what it replies.
ghost use Rattle.std.specs.Prelude.{◌≡◌, ℕ, ◌<◌, ◌≤◌, ◌*◌, ◌-◌, [], List, length, vec_capacity};
ghost use Rattle.claim.specs.declared.word.TheConstants.{GENERATIONS};
ghost use Rattle.history.specs.declared.req.Req.{Req as Request};
ghost use Rattle.history.specs.History.{hit, nothing};
ghost use Rattle.steps.specs.{IsCell, cells_in, request_at, events_of, IsSameSeat};
ghost use Rattle.work.specs.declared.cancel.Searched.TheVariants.{Ended};
ghost use Rattle.work.specs.{AreMarked, IsGridOf, IsSpare, Cancels, FewSteps, FewerSteps, IsFirst, DidCancel, Told};

use crate::advance::advance;
use crate::cancel::{Searched, Wanted, search};
use crate::cancel_all::{cancel_all, note};
use crate::lists::Lists;
use crate::task::Task;
use history::Req;
use steps::TableSeat;

/// The reply of a cancel whose target was not found: -ENOENT.
const NOT_FOUND: i32 = -2;

/// That of one whose target runs: -EALREADY.
const ALREADY: i32 = -114;

/// The reply of a cancel of one target, which it notes where it was ended (io_uring_prep_cancel64(3)).
fn told(searched: Searched, took: &mut Vec<Req>) -> i32
    requires empty { took.old.items ≡ [] }
    requires room { (t : Request) → searched ≡ Ended t → 0 < vec_capacity took.old }
    ensures told { Told searched result took.new.items }
    ensures capacity { vec_capacity took.old ≤ vec_capacity took.new }
{
    match searched {
        Searched::NoneLeft => NOT_FOUND,
        Searched::Ended(target) => {
            note(took, target);
            0
        }
        Searched::Found => ALREADY,
    }
}

/// Goes over the earlier requests of the ring from this one on. It ends the first that the cancel is meant for and that has no reply,
/// or all such requests. Gives the cancel's reply, and notes which it ended.
fn cancel_from(
    task: &Task<'_>,
    seat: &mut TableSeat,
    first: u64,
    wanted: Wanted,
    took: &mut Vec<Req>,
) -> i32
    requires cancels { Cancels task.now.words.now.table_id seat.old task.now.req wanted × (hit (events_of seat.old.me.0.seen) task.now.req ≡ nothing) }
    requires grid { IsGridOf task.now.words.now.table_id task.now.grid.now seat.old.me.0 }
    requires cell { (x : ℕ) × (g : ℕ) × (g < GENERATIONS) × IsCell task.now.grid.now x × (request_at task.now.grid.now x g ≡ task.now.req) }
    requires first { IsFirst task.now.grid.now seat.old.me.0 task.now.req first }
    requires spare { IsSpare task.now.grid.now took.old.items (vec_capacity took.old) }
    ensures seat { IsSameSeat seat.old seat.new × (seat.new.me.1 ≡ seat.old.me.1) }
    ensures canceled { DidCancel seat.old.me.0 seat.new.me.0 task.now.req wanted took.new.items result }
    ensures steps { FewSteps seat.old.me.0 seat.new.me.0 3 (5 * (task.now.req.k - first)) }
    ensures capacity { vec_capacity took.old ≤ vec_capacity took.new }
    ensures few { length took.new.items < cells_in task.now.grid.now task.now.req.ring }
{
    if wanted.all {
        cancel_all(task, seat, first, wanted, took);
        took.len() as i32
    } else {
        let searched = search(task, seat, first, wanted);
        told(searched, took)
    }
}

/// Ends the first request that the cancel is meant for and that has no reply, or all such requests. Gives the cancel's reply, and
/// lists which it ended.
pub(crate) fn cancel_matches(
    task: &Task<'_>,
    seat: &mut TableSeat,
    wanted: Wanted,
    lists: &mut Lists,
) -> i32
    requires cancels { Cancels task.now.words.now.table_id seat.old task.now.req wanted × (hit (events_of seat.old.me.0.seen) task.now.req ≡ nothing) }
    requires grid { IsGridOf task.now.words.now.table_id task.now.grid.now seat.old.me.0 }
    requires cell { (x : ℕ) × (g : ℕ) × (g < GENERATIONS) × IsCell task.now.grid.now x × (request_at task.now.grid.now x g ≡ task.now.req) }
    requires spare { IsSpare task.now.grid.now lists.old.took.items (vec_capacity lists.old.took) }
    requires marked { AreMarked lists.old.marks seat.old.me.0.seen }
    ensures seat { IsSameSeat seat.old seat.new × (seat.new.me.1 ≡ seat.old.me.1) }
    ensures canceled { DidCancel seat.old.me.0 seat.new.me.0 task.now.req wanted lists.new.took.items result }
    ensures marked { AreMarked lists.new.marks seat.new.me.0.seen }
    ensures steps { FewerSteps seat.old.me.0 seat.new.me.0 task.now.req 4 (5 * cells_in task.now.grid.now task.now.req.ring - 1) }
    ensures capacity { vec_capacity lists.old.took ≤ vec_capacity lists.new.took }
    ensures few { length lists.new.took.items < cells_in task.now.grid.now task.now.req.ring }
    ensures others { (lists.new.source ≡ lists.old.source) × (lists.new.woken ≡ lists.old.woken) }
{
    let first = advance(task.words, seat, task.grid, task.req, &mut lists.marks);
    cancel_from(task, seat, first, wanted, &mut lists.took)
}
