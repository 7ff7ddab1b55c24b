//! A worker's pass.
ghost use Rattle.std.specs.Prelude.{◌≡◌, ◌≤◌, ◌⊎◌, ◌++◌, ◌*◌, length, IfOk, IfErr};
ghost use Rattle.history.specs.declared.event.Event.TheVariants.{Begin};
ghost use Rattle.steps.specs.declared.line.Line.TheVariants.{Did};
ghost use Rattle.steps.specs.{total, Looks, Extends};
ghost use Rattle.steps.specs.declared.view.Role.{Role};
ghost use Rattle.work.specs.Board.{Facts, IsOf};

use crate::busy::Busy;
use crate::grid::Grid;
use crate::lists::Lists;
use crate::pass::{Messenger, Pass};
use crate::task::Task;
use claim::GENERATIONS;
use history::Req;
use std::marker::Model;
use steps::{TableSeat, Words, seat, table};

/// A worker without a request. Contracts see its table, what it knows, which requests its last run ended, and which it took along
/// from the pipes that it gave back. Its lists lie on the heap, since each of its calls moves the worker.
#[derive(Drop)]
pub struct Worker {
    seat: TableSeat,
    lists: Box<Lists>,
}

impl Model for Worker {
    ghost use Rattle.work.specs.Passes.{Pass, AreMarked, HasRooms, IsIdleSeat, woken_of};

    ghost Value = { Pass };

    ghost view = { λ w. record { table = w.seat.table_id; view = w.seat.me.0; took = w.lists.value.took.items; woken = woken_of w.lists.value } };

    ghost invariant = { λ w. IsIdleSeat w.seat × HasRooms w.seat.me.0.layout.cells w.lists.value × AreMarked w.lists.value.marks w.seat.me.0.seen };
}

impl Worker {
    ghost use Rattle.work.specs.Passes.{pass_of, AreMarked, HasRooms, IsIdleSeat, woken_of};

    /// The pass of an idle seat. The lists are emptied.
    pub fn new(seat: TableSeat, mut lists: Box<Lists>) -> Worker
        requires seat { IsIdleSeat seat }
        requires room { HasRooms seat.me.0.layout.cells lists.value }
        ensures { result ≡ pass_of seat }
    {
        lists.clear();
        lists.marks.reset();
        Self { seat, lists }
    }

    /// The same after a run that listed these requests.
    pub(crate) fn after(seat: TableSeat, lists: Box<Lists>) -> Worker
        requires seat { IsIdleSeat seat }
        requires room { HasRooms seat.me.0.layout.cells lists.value }
        requires marked { AreMarked lists.value.marks seat.me.0.seen }
        ensures { result ≡ record (pass_of seat) { took = lists.value.took.items; woken = woken_of lists.value } }
    {
        Self { seat, lists }
    }

    /// The requests that its last run ended, in the order of their numbers: none where that was no cancel's. The list stands until its
    /// next run.
    pub fn took(&self) -> &[Req]
        ensures { result.now ≡ self.now.took }
    {
        self.lists.took.as_slice()
    }

    /// The requests that its last run took along from the pipes that it gave back: they found no answer there, and may have one now.
    /// After a reply these are all that lay there, of a SPLICE those of its source, and then those of its target. After a park they
    /// are those that had to make place. A number may be stale: its request was ended by a cancel or a timer, or lay with two pipes.
    /// One whose request still runs isn't stale. The lists stand until its next run.
    pub fn woken(&self) -> (&[Req], &[Req])
        ensures lists { result.0.now ++ result.1.now ≡ self.now.woken }
        ensures room { length self.now.woken ≤ 2 * total self.now.view.layout.cells }
    {
        (self.lists.source.as_slice(), self.lists.woken.as_slice())
    }

    /// Its seat.
    pub fn into_seat(self) -> TableSeat
        ensures seat { IsIdleSeat result }
        ensures value { record (pass_of result) { took = self.took; woken = self.woken } ≡ self }
    {
        let Worker { seat, lists: _ } = self;
        seat
    }
}

impl Pass for Worker {
    ghost knows = { λ w. w };

    fn load(&mut self, words: &Words, cell: usize) -> u64 {
        seat::look(words, &mut self.seat, cell)
    }

    fn tell(&mut self, words: &Words) -> Messenger {
        Messenger::new(table::tell(words, &mut self.seat))
    }

    fn hear(&mut self, words: &Words, messenger: Messenger) {
        table::hear(words, &mut self.seat, messenger.into_seat());
    }
}

impl Worker {
    ghost use Rattle.work.specs.Passes.{IsOn, FoundNotReady, Took};

    /// Takes up a request that is Ready, or gives the worker back. `pipes` is how many pipes the board has.
    pub fn begin<'a>(
        self,
        words: &'a Words,
        grid: &'a Grid,
        pipes: usize,
        req: Req,
    ) -> Result<Busy<'a>, Worker>
        requires on { IsOn words.now.table_id grid.now pipes self }
        ensures begun { IfOk result (λ b. (b.req ≡ req) × (b.pass.table ≡ self.table) × Extends self.view (Did (Begin req)) (Role.Busy req) b.pass.view) }
        ensures kept { (b : Facts) → IsOf b self → IfOk result (λ busy. IsOf b busy.pass) × IfErr result (λ w. IsOf b w) }
        ensures steps { IfOk result (λ b. Took self.view b.pass.view 1) }
        ensures took { IfOk result (λ b. b.took ≡ self.took) × IfErr result (λ w. w.took ≡ self.took) }
        ensures woken { IfOk result (λ b. b.woken ≡ self.woken) × IfErr result (λ w. w.woken ≡ self.woken) }
        ensures refused { IfErr result (λ w. (w.table ≡ self.table) × ((w.view ≡ self.view) ⊎ Looks self.view w.view) × ((length grid.now ≤ req.ring) ⊎ FoundNotReady grid.now req self.view w.view)) }
    {
        let Worker { mut seat, lists } = self;
        let Some(cell) = grid.locate(req) else {
            return Err(Worker { seat, lists });
        };
        if cell.generation >= u64::from(GENERATIONS) {
            seat::look(words, &mut seat, cell.index);
            return Err(Worker { seat, lists });
        }
        let generation = cell.generation as u32;
        if !seat::begin(words, &mut seat, cell.index, generation) {
            return Err(Worker { seat, lists });
        }
        let task = Task {
            words,
            grid,
            cell: cell.index,
            generation,
            req,
            pipes,
        };
        Ok(Busy { task, seat, lists })
    }
}
