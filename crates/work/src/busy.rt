//! A worker that runs a request.
ghost use Rattle.std.specs.Prelude.{◌≡◌, ◌<◌, length};
ghost use Rattle.entry.specs.Entry.{Entry};
ghost use Rattle.history.specs.declared.event.Event.TheVariants.{Park};
ghost use Rattle.history.specs.Chains.{IsPlaced};
ghost use Rattle.steps.specs.declared.line.Line.TheVariants.{Did};
ghost use Rattle.steps.specs.declared.view.Role.{Role};
ghost use Rattle.steps.specs.declared.view.Role.TheVariants.{Idle};
ghost use Rattle.steps.specs.{cells_in, Looks, Extends, NoneSleeps};
ghost use Rattle.work.specs.Board.{Facts, IsOf};

use crate::answering::{Answering, Underway};
use crate::lists::Lists;
use crate::run::Ran;
use crate::task::{Task, asked_of};
use crate::worker::Worker;
use std::marker::Model;
use steps::{TableSeat, seat};

/// A worker that runs a request. It has to be spent, by `run` or `park`.
pub struct Busy<'a> {
    pub(crate) task: Task<'a>,
    pub(crate) seat: TableSeat,
    pub(crate) lists: Box<Lists>,
}

impl<'a> Model for Busy<'a> {
    ghost use Rattle.work.specs.Passes.{Running, pass_of, woken_of, IsBusySeat, IsUnderway};
    ghost use Rattle.steps.specs.declared.slot.Submission.{Submission};

    ghost Value = { Running };

    ghost view = { λ b. record { pass = pass_of b.seat; req = b.task.req; took = b.lists.value.took.items; woken = woken_of b.lists.value } };

    ghost invariant = { λ b. IsUnderway b.seat.me.0 b.task.req × (p : Submission) × IsBusySeat b.task.words.now.table_id b.task.grid.now b.seat b.task.cell b.task.generation b.task.req p b.task.pipes b.lists.value };
}

impl<'a> Busy<'a> {
    ghost use Rattle.work.specs.{Took, notes_read, seen_of, ReadNotes, HasStepped, HasWoken, IsRun};

    /// Puts the request back to Ready. The lists of what its last run took, and took along, stay.
    pub fn park(self) -> Worker
        ensures kept { (b : Facts) → IsOf b self.entry.pass → IsOf b result }
        ensures took { result.took ≡ self.entry.took }
        ensures woken { result.woken ≡ self.entry.woken }
        ensures steps { Took self.entry.pass.view result.view 1 }
        ensures parked { (result.table ≡ self.entry.pass.table) × Extends self.entry.pass.view (Did (Park self.entry.req)) Idle result.view }
    {
        let Busy {
            task,
            mut seat,
            mut lists,
        } = self;
        let Task {
            words,
            cell,
            generation,
            ..
        } = task;
        seat::park(words, &mut seat, cell, generation);
        Worker::after(seat, lists)
    }

    /// Looks what the request asks for.
    fn ask(self) -> Answering<'a>
        ensures same { (result.req ≡ self.entry.req) × (result.pass.table ≡ self.entry.pass.table) }
        ensures looks { Looks self.entry.pass.view result.pass.view }
        ensures busy { self.entry.pass.view.role ≡ Role.Busy self.entry.req }
        ensures placed { (e : Entry) → IsPlaced (seen_of self.entry.pass) self.entry.req e → IsPlaced (seen_of result.pass) result.req e }
        ensures steps { (e : Entry) → IsPlaced (seen_of self.entry.pass) self.entry.req e → ReadNotes self.entry.pass.view result.pass.view (notes_read e.op) }
    {
        let Busy {
            task,
            mut seat,
            lists,
        } = self;
        let asked = asked_of(task.words, &mut seat, task.cell);
        let run = Underway { task, asked, seat };
        Answering { run, lists }
    }

    /// Answers the request. Where there is no answer now, or another worker has a pipe of it, it puts the request back to
    /// Ready instead. One that has no answer now lies with each pipe of the board that its entry names from then on, until the pipe
    /// is in hand of a run that replies: that one takes all along that lie there. A cancel takes at most four steps at each claim word,
    /// and at most five for each cell of its ring in all, and one more.
    pub fn run(self) -> (Worker, Ran)
        ensures worker { result.0.table ≡ self.entry.pass.table }
        ensures kept { (b : Facts) → IsOf b self.entry.pass → IsOf b result.0 }
        ensures few { length result.0.took < cells_in self.entry.pass.view.layout.cells self.entry.req.ring }
        ensures woken { (e : Entry) → IsPlaced (seen_of self.entry.pass) self.entry.req e → HasWoken self.entry result.0 e result.1 }
        ensures awake { (b : Facts) → IsOf b self.entry.pass → NoneSleeps b.layout result.0.view.seen }
        ensures steps { (e : Entry) → IsPlaced (seen_of self.entry.pass) self.entry.req e → HasStepped self.entry result.0.view e result.1 }
        ensures ran { IsRun self.entry result.0 result.1 }
    {
        self.ask().run()
    }
}
