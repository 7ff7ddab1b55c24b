//! A worker that runs a request and has a pipe of it in hand.
ghost use Rattle.std.specs.Prelude.{◌≡◌, ℕ, [], List, Some, None, length, IfOk, IfErr};
ghost use Rattle.entry.specs.Entry.{Entry};
ghost use Rattle.history.specs.declared.event.Event.TheVariants.{Reply};
ghost use Rattle.history.specs.Chains.{IsPlaced};
ghost use Rattle.answers.specs.NamedEnds.{UsesOne};
ghost use Rattle.steps.specs.declared.line.Laid.{Laid};
ghost use Rattle.steps.specs.declared.line.Line.TheVariants.{Did, Free};
ghost use Rattle.steps.specs.declared.view.Role.{Role};
ghost use Rattle.steps.specs.declared.view.Role.TheVariants.{Leaving};
ghost use Rattle.steps.specs.declared.view.View.{View};
ghost use Rattle.steps.specs.{claim_at, pipe_at, Extends, IsStep, IsTwoSteps, leaves};

use crate::answering::{Answering, Underway};
use crate::lists::{Lists, settle};
use crate::task::{Task, answer_in, put_back};
use crate::worker::Worker;
use entry::{Cqe, fails};
use std::marker::Model;
use steps::seat::Response;
use steps::{Thing, WaitedPipe, pipes};

/// A worker that runs a request, and has taken a pipe that its entry is answered from.
pub(crate) struct Holding<'a> {
    pub run: Underway<'a>,
    pub lists: Box<Lists>,
    pub pipe: usize,
    pub waited: WaitedPipe,
}

impl<'a> Model for Holding<'a> {
    ghost use Rattle.work.specs.Passes.{Holding as Held, pass_of, with_asked, IsHoldingSeat};
    ghost use Rattle.steps.specs.declared.slot.Submission.{Submission};

    ghost Value = { Held };

    ghost view = { λ h. record { pass = pass_of h.run.seat; req = h.run.task.req; pipe = h.pipe } };

    ghost invariant = { λ h. (z : Submission) × IsHoldingSeat h.run.task.words.now.table_id h.run.task.grid.now h.run.seat h.run.task.cell h.run.task.generation h.run.task.req (with_asked z h.run.asked) h.run.task.pipes h.pipe h.waited h.lists.value };
}

impl<'a> Holding<'a> {
    ghost use Rattle.work.specs.{seen_of, LaidDown, TookAlong, Unanswered};

    /// Answers the request by its pipe, and gives the pipe back, from which it takes along all that lie there; or gives it back as it
    /// was and lays the request down there, where there is no answer now.
    pub(crate) fn answer(self) -> Result<(Worker, Cqe), Answering<'a>>
        requires named { (e : Entry) → IsPlaced (seen_of self.pass) self.req e → UsesOne e.op (length self.pass.view.layout.caps) self.pipe }
        ensures replied { IfOk result (λ t. (t.0.table ≡ self.entry.pass.table) × (data' : List ℕ) × (mid : View) × Extends self.entry.pass.view (Did (Reply self.entry.req t.1.res data')) (Leaving self.entry.req) mid × (found : ℕ) × (t.0.view ≡ leaves (pipe_at self.entry.pipe) found mid)) }
        ensures took { IfOk result (λ t. t.0.took ≡ []) }
        ensures woken { IfOk result (λ t. TookAlong self.entry.req self.entry.pipe t.1.res t.0.view t.0.woken) }
        ensures steps { IfOk result (λ t. (word : ℕ) × IsTwoSteps word (pipe_at self.entry.pipe) self.entry.pass.view t.0.view) }
        ensures user_data { IfOk result (λ t. (e : Entry) → IsPlaced (seen_of self.entry.pass) self.entry.req e → t.1.user_data ≡ e.user_data) }
        ensures waits { IfErr result (λ b. (b.req ≡ self.entry.req) × (b.pass.table ≡ self.entry.pass.table) × (laid : Laid) × Extends self.entry.pass.view (Free self.entry.req self.entry.pipe laid) (Role.Busy self.entry.req) b.pass.view × LaidDown self.entry.pass.view b.pass.view self.entry.req self.entry.pipe b.woken × ((found : ℕ) × IsStep (pipe_at self.entry.pipe) found self.entry.pass.view b.pass.view)) }
        ensures unanswered { IfErr result (λ b. (e : Entry) → IsPlaced (seen_of self.entry.pass) self.entry.req e → Unanswered self.entry.pass.view self.entry.req e) }
    {
        let Holding {
            mut run,
            mut lists,
            pipe,
            mut waited,
        } = self;
        let Task {
            words,
            cell,
            generation,
            req,
            ..
        } = run.task;
        let found = &mut *lists;
        let op = run.asked.op();
        run.seat.turn();
        let answer = answer_in(words, &mut run.seat, cell, op, &mut waited.pipe);
        run.seat.turn();
        let laid = settle(&mut waited.lying, &mut found.woken, req, answer.is_some());
        put_back(words, &mut run.seat, pipe, Thing::Piped(waited));
        let Some(res) = answer else {
            pipes::free(words, &mut run.seat, pipe, laid);
            return Err(Answering { run, lists });
        };
        run.seat.turn();
        let response = Response {
            cell,
            generation,
            fails: fails(&run.asked, res),
            res,
        };
        let cqe = Cqe {
            user_data: run.asked.user_data(),
            res,
        };
        pipes::reply(words, &mut run.seat, response, pipe);
        found.took.clear();
        let Underway { seat, .. } = run;
        Ok((Worker::after(seat, lists), cqe))
    }
}
