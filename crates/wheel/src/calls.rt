//! Lists of calls on a set of timers, whatever set it is.
ghost use Rattle.std.specs.Prelude.{◌≡◌, ℕ, List, take, IfOk, OnOk, OnErr};
ghost use Rattle.wheel.specs.CallRuns.{Answers, Runs};
ghost use Rattle.wheel.specs.declared.calls.Answer.{Answer};

use crate::error::Memory;
use crate::set::TimerSet;
use history::Req;
use std::alloc::Global;

/// A call on a set of timers.
#[derive(Clone, Copy)]
pub enum Call {
    Arm { req: Req, at: u32 },
    DropTimer(Req),
    Due(u32),
}

/// What a call answers.
#[derive(Clone, Copy, PartialEq, Eq, Debug)]
pub enum Answer {
    Armed,
    Dropped(bool),
    First(Option<Req>),
}

/// Makes one call. Want of memory changes nothing.
fn make<T: TimerSet>(timers: &mut T, call: Call) -> Result<Answer, Memory>
    ensures ok { IfOk result (λ a. Answers (T.deadline timers.old) call a (T.deadline timers.new)) }
    ensures err { OnErr result (T.deadline timers.new ≡ T.deadline timers.old) }
{
    match call {
        Call::Arm { req, at } => {
            timers.arm(req, at)?;
            Ok(Answer::Armed)
        }
        Call::DropTimer(req) => Ok(Answer::Dropped(timers.drop_timer(req))),
        Call::Due(now) => Ok(Answer::First(timers.due(now))),
    }
}

/// Makes the calls one after another, and gives their answers in order. Where memory is wanting, some first calls were made.
pub fn run<T: TimerSet>(
    alloc: Global,
    timers: &mut T,
    calls: &[Call],
) -> Result<Vec<Answer>, Memory>
    ensures ok { IfOk result (λ answers. Runs (T.deadline timers.old) calls.now answers.items (T.deadline timers.new)) }
    ensures err { OnErr result ((n : ℕ) × (xs : List Answer) × Runs (T.deadline timers.old) (take n calls.now) xs (T.deadline timers.new)) }
{
    let mut answers = Vec::new(alloc);
    for call in calls {
        let answer = make(timers, *call)?;
        if answers.push(answer).is_err() {
            return Err(Memory);
        }
    }
    Ok(answers)
}
