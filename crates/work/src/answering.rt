//! A worker that runs a request and knows what that asks for.
ghost use Rattle.std.specs.Prelude.{◌≡◌, ℕ, ◌<◌, ◌*◌, true, [], ◌∷◌, List, Some, None, length, IfOk, IfErr};
ghost use Rattle.entry.specs.Entry.{Entry};
ghost use Rattle.history.specs.declared.event.Event.{Event};
ghost use Rattle.history.specs.declared.event.Event.TheVariants.{Park, Reply};
ghost use Rattle.history.specs.{IsPlaced, uses_at};
ghost use Rattle.answers.specs.declared.named.NamedPipes.TheVariants.{One};
ghost use Rattle.answers.specs.NamedEnds.{UsesNone, UsesOne};
ghost use Rattle.steps.specs.declared.line.Line.TheVariants.{Did, Hold};
ghost use Rattle.steps.specs.declared.view.Role.{Role};
ghost use Rattle.steps.specs.declared.view.Role.TheVariants.{Idle};
ghost use Rattle.steps.specs.{cells_in, pipe_at, Looks, Extends, IsStep, NoneSleeps};
ghost use Rattle.work.specs.Board.{Facts, IsOf};

use crate::cancel::{Wanted, wanted_of};
use crate::cancel_matches::cancel_matches;
use crate::holding::Holding;
use crate::lists::Lists;
use crate::placed::{fails_placed, op_placed};
use crate::run::{Parked, Ran};
use crate::task::Task;
use crate::worker::Worker;
use answers::{NamedPipes, answer_without, pipes_of};
use entry::{Cqe, Sqe};
use std::marker::Model;
use steps::seat::Response;
use steps::{TableSeat, pipes, seat, slot};

/// A request that a worker runs, and what that asks for: an entry with its operation and its user_data.
#[derive(Drop)]
pub(crate) struct Underway<'a> {
    pub task: Task<'a>,
    pub asked: Sqe,
    pub seat: TableSeat,
}

/// A worker that runs a request, and has no pipe of the board.
pub(crate) struct Answering<'a> {
    pub run: Underway<'a>,
    pub lists: Box<Lists>,
}

impl<'a> Model for Answering<'a> {
    ghost use Rattle.work.specs.Passes.{Running, pass_of, woken_of, with_asked, IsBusySeat};
    ghost use Rattle.steps.specs.declared.slot.Submission.{Submission};

    ghost Value = { Running };

    ghost view = { λ b. record { pass = pass_of b.run.seat; req = b.run.task.req; took = b.lists.value.took.items; woken = woken_of b.lists.value } };

    ghost invariant = { λ b. (z : Submission) × IsBusySeat b.run.task.words.now.table_id b.run.task.grid.now b.run.seat b.run.task.cell b.run.task.generation b.run.task.req (with_asked z b.run.asked) b.run.task.pipes b.lists.value };
}

impl<'a> Answering<'a> {
    ghost use Rattle.work.specs.{Took, seen_of, FewSteps, wanted_in, AreFew, AreHits, EndsBy, HasWoken, StepsAt, StepsBy, IsRun, MissedPipe, WakesAt, taken_in};

    /// Puts the request back to Ready, after a run that took nothing.
    pub(crate) fn give_up(self) -> Worker
        ensures kept { (b : Facts) → IsOf b self.entry.pass → IsOf b result }
        ensures took { result.took ≡ [] }
        ensures woken { result.woken ≡ self.entry.woken }
        ensures steps { Took self.entry.pass.view result.view 1 }
        ensures parked { (result.table ≡ self.entry.pass.table) × Extends self.entry.pass.view (Did (Park self.entry.req)) Idle result.view }
    {
        let Answering { mut run, mut lists } = self;
        let task = run.task;
        lists.took.clear();
        seat::park(task.words, &mut run.seat, task.cell, task.generation);
        let Underway { seat, .. } = run;
        Worker::after(seat, lists)
    }

    /// Answers the request, which is no cancel and is answered from no pipe of the board.
    fn answer(self) -> (Worker, Cqe)
        requires plain { (e : Entry) → IsPlaced (seen_of self.pass) self.req e → wanted_in e.op ≡ None }
        requires past { (e : Entry) → IsPlaced (seen_of self.pass) self.req e → UsesNone e.op (length self.pass.view.layout.caps) }
        ensures table { result.0.table ≡ self.entry.pass.table }
        ensures took { (result.0.took ≡ []) × (result.0.woken ≡ []) }
        ensures step { (found : ℕ) × (word : ℕ) × IsStep word found self.entry.pass.view result.0.view }
        ensures replied { Extends self.entry.pass.view (Did (Reply self.entry.req result.1.res [])) Idle result.0.view }
        ensures user_data { (e : Entry) → IsPlaced (seen_of self.entry.pass) self.entry.req e → result.1.user_data ≡ e.user_data }
    {
        let Answering { mut run, mut lists } = self;
        let task = run.task;
        let res = answer_without(op_placed(&run.asked), task.pipes as u64);
        let response = Response {
            cell: task.cell,
            generation: task.generation,
            fails: fails_placed(&run.asked, res),
            res,
        };
        let cqe = Cqe {
            user_data: run.asked.user_data(),
            res,
        };
        seat::reply(task.words, &mut run.seat, response);
        lists.clear();
        let Underway { seat, .. } = run;
        (Worker::after(seat, lists), cqe)
    }

    /// Takes a pipe that the entry is answered from, or comes back where another worker has it.
    pub(crate) fn hold(self, pipe: usize) -> Result<Holding<'a>, Answering<'a>>
        requires named { (e : Entry) → IsPlaced (seen_of self.pass) self.req e → (uses_at e.op pipe ≡ true) × (pipe < length self.pass.view.layout.caps) }
        ensures held { IfOk result (λ h. (h.req ≡ self.entry.req) × (h.pipe ≡ pipe) × (h.pass.table ≡ self.entry.pass.table) × IsStep (pipe_at pipe) 0 self.entry.pass.view h.pass.view × Extends self.entry.pass.view (Hold self.entry.req pipe) (Role.Busy self.entry.req) h.pass.view) }
        ensures busy { IfErr result (λ b. (b.req ≡ self.entry.req) × (b.pass.table ≡ self.entry.pass.table) × Looks self.entry.pass.view b.pass.view × MissedPipe self.entry.pass.view b.pass.view pipe self.entry.req) }
        ensures woken { IfErr result (λ b. b.woken ≡ []) }
    {
        let Answering { mut run, mut lists } = self;
        let words = run.task.words;
        lists.rest();
        if !pipes::hold(words, &mut run.seat, pipe) {
            return Err(Answering { run, lists });
        }
        let thing = words.exchange(&mut run.seat, pipe, None);
        Ok(Holding {
            run,
            lists,
            pipe,
            waited: slot::pipe_of(thing),
        })
    }

    /// Answers the request, which is a cancel: it ends the first request that it is meant for and that has no reply, or all such
    /// requests. The worker lists them.
    fn cancel(self, wanted: Wanted) -> (Worker, Cqe)
        requires wanted { (e : Entry) → IsPlaced (seen_of self.pass) self.req e → wanted_in e.op ≡ Some wanted }
        ensures table { result.0.table ≡ self.entry.pass.table }
        ensures ended { (own : List Event) × EndsBy self.entry.pass.view result.0.view self.entry.req own (Reply self.entry.req result.1.res []) × AreHits self.entry.req self.entry.req.k own × (result.0.took ≡ taken_in own) × AreFew (Some wanted) own }
        ensures few { length result.0.took < cells_in self.entry.pass.view.layout.cells self.entry.req.ring }
        ensures woken { result.0.woken ≡ [] }
        ensures kept { (b : Facts) → IsOf b self.entry.pass → IsOf b result.0 }
        ensures user_data { (e : Entry) → IsPlaced (seen_of self.entry.pass) self.entry.req e → result.1.user_data ≡ e.user_data }
        ensures steps { FewSteps self.entry.pass.view result.0.view 4 (5 * cells_in self.entry.pass.view.layout.cells self.entry.req.ring) }
    {
        let Answering { mut run, mut lists } = self;
        let task = run.task;
        let found = &mut *lists;
        found.clear();
        let res = cancel_matches(&task, &mut run.seat, wanted, found);
        let response = Response {
            cell: task.cell,
            generation: task.generation,
            fails: fails_placed(&run.asked, res),
            res,
        };
        let cqe = Cqe {
            user_data: run.asked.user_data(),
            res,
        };
        seat::reply(task.words, &mut run.seat, response);
        let Underway { seat, .. } = run;
        (Worker::after(seat, lists), cqe)
    }

    /// Answers the request, which is answered from one pipe of the board, or puts it back to Ready.
    fn run_with(self, pipe: usize) -> (Worker, Ran)
        requires named { (e : Entry) → IsPlaced (seen_of self.pass) self.req e → UsesOne e.op (length self.pass.view.layout.caps) pipe }
        ensures worker { result.0.table ≡ self.entry.pass.table }
        ensures kept { (b : Facts) → IsOf b self.entry.pass → IsOf b result.0 }
        ensures took { result.0.took ≡ [] }
        ensures woken { WakesAt (One pipe) self.entry result.0 result.1 }
        ensures steps { StepsAt 0 (One pipe) self.entry.pass.view result.0.view self.entry.req result.1 }
        ensures ran { IsRun self.entry result.0 result.1 }
    {
        prove!(pipe < self.run.task.pipes);
        let holding = match self.hold(pipe) {
            Ok(holding) => holding,
            Err(busy) => return (busy.give_up(), Ran::Parked(Parked::PipeBusy)),
        };
        match holding.answer() {
            Ok((worker, cqe)) => (worker, Ran::Replied { cqe }),
            Err(busy) => (busy.give_up(), Ran::Parked(Parked::NotReady)),
        }
    }

    /// What `Busy::run` does once it has looked.
    pub(crate) fn run(self) -> (Worker, Ran)
        ensures worker { result.0.table ≡ self.entry.pass.table }
        ensures kept { (b : Facts) → IsOf b self.entry.pass → IsOf b result.0 }
        ensures few { length result.0.took < cells_in self.entry.pass.view.layout.cells self.entry.req.ring }
        ensures woken { (e : Entry) → IsPlaced (seen_of self.entry.pass) self.entry.req e → HasWoken self.entry result.0 e result.1 }
        ensures awake { (b : Facts) → IsOf b self.entry.pass → NoneSleeps b.layout result.0.view.seen }
        ensures steps { (e : Entry) → IsPlaced (seen_of self.entry.pass) self.entry.req e → StepsBy 0 (wanted_in e.op) self.entry result.0.view e result.1 }
        ensures ran { IsRun self.entry result.0 result.1 }
    {
        if let Some(wanted) = wanted_of(self.run.asked.op()) {
            let (worker, cqe) = self.cancel(wanted);
            return (worker, Ran::Replied { cqe });
        }
        match pipes_of(self.run.asked.op(), self.run.task.pipes as u64) {
            NamedPipes::Nothing => {
                let (worker, cqe) = self.answer();
                (worker, Ran::Replied { cqe })
            }
            NamedPipes::One(pipe) => self.run_with(pipe as usize),
            NamedPipes::Both { source, target } => {
                self.run_between(source as usize, target as usize)
            }
        }
    }
}
