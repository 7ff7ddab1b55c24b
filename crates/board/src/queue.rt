//! What a submitter keeps of its ring, and whether the cells of the next requests are free.
ghost use Rattle.std.specs.Prelude.{◌≡◌, ◌≢◌, ◌⊎◌, ℕ, ◌+◌, ◌*◌, ◌%◌, ◌<◌, ◌≤◌, ◌/◌, true, List, Option, Some, IfOk, IfErr, IfSome, IfNone, IsTrue, length, slice_set as set};
ghost use Rattle.claim.specs.Facts.{Facts as FactsOf, fits_facts, packed_facts};
ghost use Rattle.history.specs.{phase, IsReplied, IsChainDone, before_in, hosts, joins};
ghost use Rattle.steps.specs.{IsFree, IsReaped, events_of, IsSameSeat, cells_in};
ghost use Rattle.work.specs.Passes.{pass_of};
ghost use Rattle.board.specs.declared.queue.Queue.{Queue as QueueOf};
ghost use Rattle.board.specs.Calls.{Stepped};
ghost use Rattle.board.specs.Queues.{nth, AreFree, HasLookedAt, IsQueue, IsFreeAfter, IsOver, IsCellOf, LinkedAreReaped, RefusesRoom, SameQueue, Watched, WereReaped, continues};
ghost use Rattle.atomic_table.specs.declared.shared.Seat.{Seat};
ghost use Rattle.steps.specs.declared.slot.Thing.{Thing};
ghost use Rattle.steps.specs.declared.view.View.{View};

use crate::error::SubmitError;
use crate::phase::{Phase, told};
use claim::{GENERATIONS, unpack_facts};
use entry::Sqe;
use history::Req;
use steps::{TableSeat, Words, seat};
use work::{Cell, Grid};

/// The last generation of a cell's word. No request has it.
const LAST_GENERATION: u64 = GENERATIONS as u64 - 1;

/// What the submitter of a ring keeps of it.
#[derive(Drop)]
pub(crate) struct Queue {
    pub ring: u16,
    /// The number of its next request.
    pub next: u64,
    /// How many requests of each cell it has reaped.
    pub ages: Vec<u32>,
    /// The facts that it noted last for each cell.
    pub facts: Vec<u64>,
    /// The chains of all requests before this one have replied.
    /// They stay so: each chain is passed once, however many submissions ask for its cells.
    pub done: u64,
    /// Whether a LINK_TIMEOUT may be the next entry. After the end of a batch none may: its first entry is no case of its own.
    pub hosted: bool,
}

impl Queue {
    /// The next request was submitted to the cell with this number in its ring, which was free, with these facts; `hosted`
    /// says whether a LINK_TIMEOUT may be the entry after it.
    pub(crate) fn go_on(&mut self, number: usize, facts: u64, hosted: bool)
        requires there { number < length self.old.facts.items }
        requires few { self.old.next + 1 < 18446744073709551616 }
        ensures next { (self.new.ring ≡ self.old.ring) × (self.new.next ≡ self.old.next + 1) × (self.new.hosted ≡ hosted) }
        ensures cells { (self.new.ages ≡ self.old.ages) × (self.new.facts.items ≡ set self.old.facts.items number facts) }
        ensures done { (self.new.done ≡ self.old.done) ⊎ ((self.old.done < self.new.done) × (self.new.done + length self.old.ages.items ≡ self.new.next)) }
        ensures near { self.new.next ≤ self.new.done + length self.old.ages.items }
    {
        self.facts[number] = facts;
        self.next += 1;
        self.hosted = hosted;
        self.done = self
            .done
            .max(self.next.saturating_sub(self.ages.len() as u64));
    }
}

/// Whether a LINK_TIMEOUT may stand directly after this entry: it is linked to the next one of its batch, and no LINK_TIMEOUT
/// itself (io_uring_prep_link_timeout(3)). `last` says that it ends its batch.
pub(crate) fn hosts(sqe: &Sqe, last: bool) -> bool
    ensures { (bytes : List ℕ) → result ≡ hosts (Some (record { entry = sqe.now; bytes = bytes; last = last })) }
{
    (sqe.links_soft() || sqe.links_hard()) && !last && !sqe.op().is_link_timeout()
}

/// Whether these facts are those of a request of this generation, whose chain continues after it.
fn goes_on(word: u64, generation: u64) -> bool
    ensures { (f : FactsOf) × IsTrue (fits_facts f) × (packed_facts f ≡ word) × (result ≡ continues f generation) }
{
    let facts = unpack_facts(word);
    u64::from(facts.generation) == generation
        && (facts.links_soft || facts.links_hard)
        && !facts.last
}

/// Whether the ring's request has replied: it was reaped, or its claim word says so.
fn has_replied(words: &Words, seat: &mut TableSeat, queue: &Queue, cell: Cell) -> bool
    requires queue { IsQueue seat.old queue.now }
    requires over { IsOver words.now.table_id seat.old.me.0.layout.cells seat.old }
    requires cell { (k : ℕ) × (k < queue.now.next) × IsCellOf seat.old.me.0.layout.cells queue.now.ring k cell }
    ensures seat { IsSameSeat seat.old seat.new × (seat.new.me.1 ≡ seat.old.me.1) }
    ensures looks { (n : ℕ) × (n ≤ 1) × Watched n seat.old.me.0 seat.new.me.0 × ((k : ℕ) → IsCellOf seat.old.me.0.layout.cells queue.now.ring k cell → IsReaped (phase (events_of seat.old.me.0.seen) (nth queue.now.ring k)) → n ≡ 0) }
    ensures replied { result ≡ true → (k : ℕ) → IsCellOf seat.old.me.0.layout.cells queue.now.ring k cell → IsReplied (phase (events_of seat.new.me.0.seen) (nth queue.now.ring k)) }
    ensures pending { result ≢ true → (k : ℕ) → IsCellOf seat.old.me.0.layout.cells queue.now.ring k cell → (IsReplied (phase (events_of seat.new.me.0.seen) (nth queue.now.ring k)) → ⊥) × Stepped seat.old.me.0.layout.cells (nth queue.now.ring k) (pass_of seat.old) (pass_of seat.new) }
{
    if u64::from(queue.ages[cell.number]) > cell.generation {
        return true;
    }
    let word = seat::look(words, seat, cell.index);
    matches!(told(word, cell.generation), Phase::Done(_) | Phase::Gone)
}

/// Whether the chain of the first request that isn't known to be done has replied: then all up to its end are.
fn pass_chain(words: &Words, seat: &mut TableSeat, queue: &mut Queue, grid: &Grid) -> bool
    requires queue { IsQueue seat.old queue.old }
    requires over { IsOver words.now.table_id grid.now seat.old }
    requires left { queue.old.done < queue.old.next }
    ensures seat { IsSameSeat seat.old seat.new × (seat.new.me.1 ≡ seat.old.me.1) }
    ensures queue { IsQueue seat.new queue.new }
    ensures kept { SameQueue queue.old queue.new }
    ensures passed { result ≡ true → (queue.old.done < queue.new.done) × ((n : ℕ) × (n + queue.old.done ≤ queue.new.done) × Watched n seat.old.me.0 seat.new.me.0 × (WereReaped seat.old.me.0 queue.old.ring queue.old.done queue.new.done → n ≡ 0)) }
    ensures linked { result ≡ true → (k : ℕ) → queue.old.done < k → k < queue.new.done → joins (before_in (events_of seat.new.me.0.seen) (nth queue.old.ring k)) ≡ true }
    ensures open { result ≢ true → (queue.new.done ≡ queue.old.done) × ((n : ℕ) × (n + queue.old.done ≤ queue.old.next + 1) × Watched n seat.old.me.0 seat.new.me.0) × ¬ IsChainDone (events_of seat.new.me.0.seen) (nth queue.old.ring queue.old.done) }
    ensures looked { result ≢ true → HasLookedAt grid.now queue.old.ring (pass_of seat.old) (pass_of seat.new) }
{
    let mut k = queue.done;
    while k < queue.next {
        let Some(cell) = grid.locate(Req {
            ring: queue.ring,
            k,
        }) else {
            unreachable!()
        };
        if !has_replied(words, seat, queue, cell) {
            return false;
        }
        k += 1;
        if !goes_on(queue.facts[cell.number], cell.generation) {
            queue.done = k;
            return true;
        }
    }
    look_at(words, seat, queue, grid, k - 1);
    false
}

/// Looks at the claim word of the ring's k-th request.
fn look_at(words: &Words, seat: &mut TableSeat, queue: &Queue, grid: &Grid, k: u64)
    requires queue { IsQueue seat.old queue.now }
    requires over { IsOver words.now.table_id grid.now seat.old }
    ensures seat { IsSameSeat seat.old seat.new × (seat.new.me.1 ≡ seat.old.me.1) }
    ensures queue { IsQueue seat.new queue.now }
    ensures looks { Watched 1 seat.old.me.0 seat.new.me.0 }
    ensures looked { HasLookedAt grid.now queue.now.ring (pass_of seat.old) (pass_of seat.new) }
{
    let Some(cell) = grid.locate(Req {
        ring: queue.ring,
        k,
    }) else {
        unreachable!()
    };
    seat::look(words, seat, cell.index);
}

/// Whether the chains of all requests before this one have replied.
fn pass_chains(
    words: &Words,
    seat: &mut TableSeat,
    queue: &mut Queue,
    grid: &Grid,
    end: u64,
) -> bool
    requires queue { IsQueue seat.old queue.old }
    requires over { IsOver words.now.table_id grid.now seat.old }
    requires end { end ≤ queue.old.next }
    ensures seat { IsSameSeat seat.old seat.new × (seat.new.me.1 ≡ seat.old.me.1) }
    ensures queue { IsQueue seat.new queue.new }
    ensures kept { SameQueue queue.old queue.new }
    ensures looks { (n : ℕ) × (n + queue.old.done ≤ queue.old.next + 1) × Watched n seat.old.me.0 seat.new.me.0 × (result ≡ true → WereReaped seat.old.me.0 queue.old.ring queue.old.done queue.new.done → n ≡ 0) }
    ensures linked { result ≡ true → (k : ℕ) → queue.old.done ≤ k → k < queue.new.done → (k < end) ⊎ (joins (before_in (events_of seat.new.me.0.seen) (nth queue.old.ring k)) ≡ true) }
    ensures passed { result ≡ true → end ≤ queue.new.done }
    ensures open { result ≢ true → (queue.new.done < end) × (¬ IsChainDone (events_of seat.new.me.0.seen) (nth queue.old.ring queue.new.done)) × HasLookedAt grid.now queue.old.ring (pass_of seat.old) (pass_of seat.new) }
{
    while queue.done < end {
        if !pass_chain(words, seat, queue, grid) {
            return false;
        }
    }
    true
}

/// The first of the ring's next requests, this many of them, before which not all of its cell were reaped.
fn first_unreaped(queue: &Queue, grid: &Grid, count: u64) -> Option<u64>
    requires queue { (s : Seat (Option Thing) View) × IsQueue s queue.now × (grid.now ≡ s.me.0.layout.cells) }
    requires fits { count ≤ cells_in grid.now queue.now.ring }
    ensures some { IfSome result (λ k. (queue.now.next ≤ k) × (k < queue.now.next + count) × ((s : Seat (Option Thing) View) → IsQueue s queue.now → grid.now ≡ s.me.0.layout.cells → ¬ IsFree grid.now (events_of s.me.0.seen) (nth queue.now.ring k))) }
    ensures none { IfNone result ((s : Seat (Option Thing) View) (a : QueueOf) → SameQueue queue.now a → IsQueue s a → grid.now ≡ s.me.0.layout.cells → queue.now.next + count ≤ a.done + cells_in grid.now queue.now.ring → AreFree grid.now s.me.0 queue.now.ring queue.now.next count) }
    ensures reaped { IfNone result ((s : Seat (Option Thing) View) (k : ℕ) → IsQueue s queue.now → grid.now ≡ s.me.0.layout.cells → queue.now.done ≤ k → k + cells_in grid.now queue.now.ring < queue.now.next + count → IsReaped (phase (events_of s.me.0.seen) (nth queue.now.ring k))) }
{
    for i in 0..count {
        let k = queue.next + i;
        let Some(cell) = grid.locate(Req {
            ring: queue.ring,
            k,
        }) else {
            unreachable!()
        };
        if u64::from(queue.ages[cell.number]) != cell.generation {
            return Some(k);
        }
    }
    None
}

/// Whether what is kept of the cell of one of the ring's next requests says that it is free, where those of the requests before that are:
/// its earlier requests were reaped, and the chain of the last of them ended with it. Where it doesn't say so, the cell may be free all
/// the same. It can have one more request, too.
fn is_known_free(queue: &Queue, grid: &Grid, k: u64) -> bool
    requires queue { (s : Seat (Option Thing) View) × IsQueue s queue.now × (grid.now ≡ s.me.0.layout.cells) }
    requires next { (queue.now.next ≤ k) × (k < queue.now.next + cells_in grid.now queue.now.ring) }
    ensures free { result ≡ true → IsFreeAfter queue.now grid.now k }
    ensures fresh { result ≡ true → k / cells_in grid.now queue.now.ring < LAST_GENERATION }
{
    let Some(cell) = grid.locate(Req {
        ring: queue.ring,
        k,
    }) else {
        unreachable!()
    };
    let generation = cell.generation;
    if u64::from(queue.ages[cell.number]) != generation || generation >= LAST_GENERATION {
        return false;
    }
    generation == 0 || !goes_on(queue.facts[cell.number], generation - 1)
}

/// Whether what is kept of the cells of the ring's next requests, this many of them, says that they are free, and may have one more each.
fn are_known_free(queue: &Queue, grid: &Grid, count: u64) -> bool
    requires queue { (s : Seat (Option Thing) View) × IsQueue s queue.now × (grid.now ≡ s.me.0.layout.cells) }
    requires fits { count ≤ cells_in grid.now queue.now.ring }
    ensures free { result ≡ true → (s : Seat (Option Thing) View) → IsQueue s queue.now → grid.now ≡ s.me.0.layout.cells → AreFree grid.now s.me.0 queue.now.ring queue.now.next count }
    ensures fresh { result ≡ true → (i : ℕ) → i < count → (queue.now.next + i) / cells_in grid.now queue.now.ring < LAST_GENERATION }
{
    for i in 0..count {
        if !is_known_free(queue, grid, queue.next + i) {
            return false;
        }
    }
    true
}

/// Whether there is room for the ring's next requests, this many of them: their cells are free, and have had fewer requests than
/// they can have. Where a cell isn't free it looks before it says so: `Full` is true of the history after a step of this very call.
pub(crate) fn room(
    words: &Words,
    seat: &mut TableSeat,
    queue: &mut Queue,
    grid: &Grid,
    count: u64,
) -> Result<(), SubmitError>
    requires queue { IsQueue seat.old queue.old }
    requires over { IsOver words.now.table_id grid.now seat.old }
    ensures seat { IsSameSeat seat.old seat.new × (seat.new.me.1 ≡ seat.old.me.1) }
    ensures queue { IsQueue seat.new queue.new }
    ensures kept { SameQueue queue.old queue.new }
    ensures looks { (n : ℕ) × (n ≤ cells_in grid.now queue.old.ring + 1) × Watched n seat.old.me.0 seat.new.me.0 × IfOk result (λ _. LinkedAreReaped (events_of seat.old.me.0.seen) queue.old.ring → n ≡ 0) }
    ensures free { IfOk result (λ _. AreFree grid.now seat.new.me.0 queue.old.ring queue.old.next count) }
    ensures fresh { IfOk result (λ _. (i : ℕ) → i < count → (queue.old.next + i) / cells_in grid.now queue.old.ring < LAST_GENERATION) }
    ensures refused { IfErr result (λ e. RefusesRoom grid.now queue.old.ring queue.old.next count (pass_of seat.old) (pass_of seat.new) e) }
{
    let cells = grid.cells_in(usize::from(queue.ring));
    if count > cells {
        return Err(SubmitError::Full);
    }
    if are_known_free(queue, grid, count) {
        return Ok(());
    }
    if let Some(k) = first_unreaped(queue, grid, count) {
        look_at(words, seat, queue, grid, k);
        return Err(SubmitError::Full);
    }
    let end = (queue.next + count).saturating_sub(cells);
    if !pass_chains(words, seat, queue, grid, end) {
        return Err(SubmitError::Full);
    }
    if queue.next + count > cells * LAST_GENERATION {
        return Err(SubmitError::Spent);
    }
    Ok(())
}
