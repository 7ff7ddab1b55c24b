//! A worker that runs a SPLICE and has both of its pipes.
ghost use Rattle.std.specs.Prelude.{◌≡◌, ℕ, ◌++◌, [], List, Some, None, length, IfOk, IfErr};
ghost use Rattle.entry.specs.Entry.{Entry};
ghost use Rattle.history.specs.declared.event.Event.TheVariants.{Reply};
ghost use Rattle.history.specs.declared.req.Req.{Req as Request};
ghost use Rattle.history.specs.Chains.{IsPlaced};
ghost use Rattle.answers.specs.declared.named.NamedPipes.TheVariants.{Both};
ghost use Rattle.answers.specs.NamedEnds.{UsesBoth};
ghost use Rattle.steps.specs.declared.line.Laid.{Laid as LaidAs};
ghost use Rattle.steps.specs.declared.line.Laid.TheVariants.{NoRequest};
ghost use Rattle.steps.specs.declared.line.Line.TheVariants.{Did, Hold, Free};
ghost use Rattle.steps.specs.declared.view.Role.{Role};
ghost use Rattle.steps.specs.declared.view.Role.TheVariants.{Leaving};
ghost use Rattle.steps.specs.declared.view.View.{View};
ghost use Rattle.steps.specs.{pipe_at, lying, Looks, Extends, IsStep, IsThreeSteps, leaves, leaves_one, HasBoth};
ghost use Rattle.work.specs.Board.{Facts, IsOf};

use crate::answering::{Answering, Underway};
use crate::holding::Holding;
use crate::lists::{Lists, settle_once};
use crate::run::{Parked, Ran};
use crate::task::put_back;
use crate::worker::Worker;
use answers::answer_both;
use entry::{Cqe, fails};
use std::marker::Model;
use steps::seat::Response;
use steps::{Laid, Thing, WaitedPipe, pipes, slot};

/// A worker that runs a SPLICE, and has taken both pipes that its entry joins.
pub(crate) struct Joining<'a> {
    pub run: Underway<'a>,
    pub lists: Box<Lists>,
    pub source: usize,
    pub target: usize,
    pub from: WaitedPipe,
    pub into: WaitedPipe,
}

impl<'a> Model for Joining<'a> {
    ghost use Rattle.work.specs.Passes.{Joining as Joined, pass_of, with_asked, IsJoiningSeat};
    ghost use Rattle.steps.specs.declared.slot.Submission.{Submission};

    ghost Value = { Joined };

    ghost view = { λ k. record { pass = pass_of k.run.seat; req = k.run.task.req; source = k.source; target = k.target } };

    ghost invariant = { λ k. (z : Submission) × IsJoiningSeat k.run.task.words.now.table_id k.run.task.grid.now k.run.seat k.run.task.cell k.run.task.generation k.run.task.req (with_asked z k.run.asked) k.run.task.pipes k.source k.target k.from k.into k.lists.value };
}

impl<'a> Holding<'a> {
    ghost use Rattle.work.specs.{seen_of, MissedPipe};

    /// Takes the target of a SPLICE, whose source it has; or gives the source back, where another worker has the target.
    fn hold(self, target: usize) -> Result<Joining<'a>, Answering<'a>>
        requires named { (e : Entry) → IsPlaced (seen_of self.pass) self.req e → UsesBoth e.op (length self.pass.view.layout.caps) self.pipe target }
        ensures held { IfOk result (λ k. (k.req ≡ self.entry.req) × (k.source ≡ self.entry.pipe) × (k.target ≡ target) × (k.pass.table ≡ self.entry.pass.table) × IsStep (pipe_at target) 0 self.entry.pass.view k.pass.view × Extends self.entry.pass.view (Hold self.entry.req target) (Role.Busy self.entry.req) k.pass.view × HasBoth k.pass.view.seen self.entry.pipe target self.entry.req) }
        ensures busy { IfErr result (λ b. (b.req ≡ self.entry.req) × (b.pass.table ≡ self.entry.pass.table) × (mid : View) × Looks self.entry.pass.view mid × MissedPipe self.entry.pass.view mid target self.entry.req × Extends mid (Free self.entry.req self.entry.pipe NoRequest) (Role.Busy self.entry.req) b.pass.view × ((found : ℕ) × IsStep (pipe_at self.entry.pipe) found mid b.pass.view)) }
        ensures woken { IfErr result (λ b. b.woken ≡ []) }
    {
        let Holding {
            mut run,
            lists,
            pipe,
            waited,
        } = self;
        let words = run.task.words;
        if !pipes::hold_second(words, &mut run.seat, target) {
            put_back(words, &mut run.seat, pipe, Thing::Piped(waited));
            pipes::free(words, &mut run.seat, pipe, Laid::NoRequest);
            return Err(Answering { run, lists });
        }
        let thing = words.exchange(&mut run.seat, target, None);
        Ok(Joining {
            run,
            lists,
            source: pipe,
            target,
            from: waited,
            into: slot::pipe_of(thing),
        })
    }
}

impl<'a> Joining<'a> {
    ghost use Rattle.work.specs.{IsLaidOnce, seen_of, LaidAtBoth, TookAlong, Unanswered};

    /// Answers the request by its pipes, and gives them back, from which it takes along all that lie there; or gives them back as
    /// they were and lays the request down at each where it does not lie already, where there is no answer now.
    fn answer(self) -> Result<(Worker, Cqe), Answering<'a>>
        ensures replied { IfOk result (λ t. (t.0.table ≡ self.entry.pass.table) × (mid : View) × Extends self.entry.pass.view (Did (Reply self.entry.req t.1.res [])) (Leaving self.entry.req) mid × (found : ℕ) × (last : ℕ) × (t.0.view ≡ leaves (pipe_at self.entry.source) last (leaves_one self.entry.req self.entry.source (pipe_at self.entry.target) found mid))) }
        ensures took { IfOk result (λ t. t.0.took ≡ []) }
        ensures woken { IfOk result (λ t. (a : List Request) × (b : List Request) × TookAlong self.entry.req self.entry.source t.1.res t.0.view a × TookAlong self.entry.req self.entry.target t.1.res t.0.view b × (t.0.woken ≡ a ++ b)) }
        ensures steps { IfOk result (λ t. (word : ℕ) × IsThreeSteps word (pipe_at self.entry.target) (pipe_at self.entry.source) self.entry.pass.view t.0.view) }
        ensures user_data { IfOk result (λ t. (e : Entry) → IsPlaced (seen_of self.entry.pass) self.entry.req e → t.1.user_data ≡ e.user_data) }
        ensures waits { IfErr result (λ b. (b.req ≡ self.entry.req) × (b.pass.table ≡ self.entry.pass.table) × (mid : View) × (laid : LaidAs) × (under : LaidAs) × Extends self.entry.pass.view (Free self.entry.req self.entry.target laid) (Role.Busy self.entry.req) mid × Extends mid (Free self.entry.req self.entry.source under) (Role.Busy self.entry.req) b.pass.view × ((found : ℕ) × IsStep (pipe_at self.entry.target) found self.entry.pass.view mid) × ((found : ℕ) × IsStep (pipe_at self.entry.source) found mid b.pass.view) × IsLaidOnce laid self.entry.req (lying self.entry.pass.view.seen self.entry.target) × IsLaidOnce under self.entry.req (lying self.entry.pass.view.seen self.entry.source)) }
        ensures lain { IfErr result (λ b. LaidAtBoth self.entry.pass.view b.pass.view self.entry.req self.entry.source self.entry.target b.woken) }
        ensures unanswered { IfErr result (λ b. (e : Entry) → IsPlaced (seen_of self.entry.pass) self.entry.req e → Unanswered self.entry.pass.view self.entry.req e) }
    {
        let Joining {
            mut run,
            mut lists,
            source,
            target,
            mut from,
            mut into,
        } = self;
        let task = run.task;
        let words = task.words;
        let found = &mut *lists;
        let answer = answer_both(run.asked.op(), &mut from.pipe, &mut into.pipe);
        let answered = answer.is_some();
        let under = settle_once(&mut from.lying, &mut found.source, task.req, answered);
        let laid = settle_once(&mut into.lying, &mut found.woken, task.req, answered);
        put_back(words, &mut run.seat, target, Thing::Piped(into));
        let Some(res) = answer else {
            pipes::free_one(words, &mut run.seat, target, laid);
            put_back(words, &mut run.seat, source, Thing::Piped(from));
            pipes::free(words, &mut run.seat, source, under);
            return Err(Answering { run, lists });
        };
        run.seat.turn();
        put_back(words, &mut run.seat, source, Thing::Piped(from));
        run.seat.turn();
        let response = Response {
            cell: task.cell,
            generation: task.generation,
            fails: fails(&run.asked, res),
            res,
        };
        let cqe = Cqe {
            user_data: run.asked.user_data(),
            res,
        };
        pipes::reply_both(words, &mut run.seat, response, target, source);
        found.took.clear();
        let Underway { seat, .. } = run;
        Ok((Worker::after(seat, lists), cqe))
    }
}

impl<'a> Answering<'a> {
    ghost use Rattle.work.specs.{seen_of, StepsAt, IsRun, WakesAt};

    /// Answers the request, which is answered from two pipes of the board, or puts it back to Ready.
    pub(crate) fn run_between(self, source: usize, target: usize) -> (Worker, Ran)
        requires named { (e : Entry) → IsPlaced (seen_of self.pass) self.req e → UsesBoth e.op (length self.pass.view.layout.caps) source target }
        ensures worker { result.0.table ≡ self.entry.pass.table }
        ensures kept { (b : Facts) → IsOf b self.entry.pass → IsOf b result.0 }
        ensures took { result.0.took ≡ [] }
        ensures woken { WakesAt (Both source target) self.entry result.0 result.1 }
        ensures steps { StepsAt 0 (Both source target) self.entry.pass.view result.0.view self.entry.req result.1 }
        ensures ran { IsRun self.entry result.0 result.1 }
    {
        prove!(source < self.run.task.pipes);
        let holding = match self.hold(source) {
            Ok(holding) => holding,
            Err(busy) => return (busy.give_up(), Ran::Parked(Parked::PipeBusy)),
        };
        let joining = match holding.hold(target) {
            Ok(joining) => joining,
            Err(busy) => return (busy.give_up(), Ran::Parked(Parked::PipeBusy)),
        };
        match joining.answer() {
            Ok((worker, cqe)) => (worker, Ran::Replied { cqe }),
            Err(busy) => (busy.give_up(), Ran::Parked(Parked::NotReady)),
        }
    }
}
