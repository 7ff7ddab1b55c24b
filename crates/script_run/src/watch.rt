//! How a thread waits for a run to go on, and how it finds that it can't.
ghost use Rattle.script_run.specs.Actors.{Went};

use crate::actor::Actor;
use crate::stage::Stage;
use board::Phase;
use std::alloc::AllocError;
use std::sync::Wait;
use std::time::Duration;
use std::{hint, thread};

/// After how many turns of the poller since something went on a request that waits for it is taken to wait for what doesn't come.
const ROUNDS: u64 = 16;

/// After how many tries in vain, one right after another, a thread naps.
const QUICK: u32 = 64;

/// How many pauses of the processor lie between two such tries: some microseconds, so that all of them take as long as it takes to wake
/// the poller and a worker.
const PAUSES: u32 = 512;

/// How long the first nap is, in microseconds. Each of the next ones is twice as long as that before it, up to sixteen times as long.
const NAP: u64 = 64;

/// How many naps a thread takes while nothing continues. A run whose workers don't come to rest by then has no memory, say.
const NAPS: u32 = 1024;

/// After how many looks that found nothing that can go on a ring takes the run to be at rest, where all others do.
const LOOKS: u32 = 4;

/// The run's mark, where its workers have nothing to do.
fn mark_of(stage: &Stage<'_>, actor: &Actor) -> Option<u64> {
    let done = actor.client.rest()?;
    Some(stage.barrier.pulse.mark(done))
}

/// What a thread has seen of a run that doesn't advance: the run's mark, how many turns the poller had made when it saw that first, and
/// how many looks since then found nothing that can go on; how many tries and naps it has made; and whether the run is at rest.
#[derive(Drop)]
pub(crate) struct Watch {
    mark: Option<u64>,
    turns: u64,
    looks: u32,
    tries: u32,
    naps: u32,
    is_at_rest: bool,
}

impl Watch {
    /// Of a run that continues.
    pub fn new() -> Watch {
        Watch {
            mark: None,
            turns: 0,
            looks: 0,
            tries: 0,
            naps: 0,
            is_at_rest: false,
        }
    }

    /// Whether the poller has gone round often since the run stood at its mark first.
    fn has_turned(&self, stage: &Stage<'_>) -> bool {
        self.turns.saturating_add(ROUNDS) <= stage.barrier.pulse.clock.turns()
    }

    /// Whether the clock has come to its end, or had its chances.
    fn has_ticked(&self, stage: &Stage<'_>) -> bool {
        stage.barrier.pulse.clock.is_over() || self.has_turned(stage)
    }

    /// Whether a request where it stands has its reply, or had its chances. The workers have nothing to do: so its completion is posted,
    /// and where it is Ready it waits for what comes through its pipes.
    fn is_settled(&self, stage: &Stage<'_>, phase: Phase) -> bool {
        match phase {
            Phase::Unborn | Phase::Gone | Phase::Ready | Phase::Done(_) => true,
            Phase::Running => false,
            Phase::Held | Phase::Armed(_) => self.has_turned(stage),
        }
    }

    /// Whether no request of the script can go on.
    fn are_settled(&self, stage: &Stage<'_>, actor: &mut Actor) -> bool
        ensures { Went actor.old actor.new }
    {
        for request in stage.requests {
            let Some(req) = request else {
                continue;
            };
            let phase = actor.client.look(*req);
            if !self.is_settled(stage, phase) {
                return false;
            }
        }
        true
    }

    /// Looks at the run where nothing was there to be taken. Whether it stands where it stood at the look before, and nothing can go on.
    /// While the workers have something to do, or the poller is in a turn, that can't be told.
    fn look(&mut self, stage: &Stage<'_>, actor: &mut Actor) -> bool
        ensures { Went actor.old actor.new }
    {
        let mark = mark_of(stage, actor);
        if mark.is_none() {
            return false;
        }
        if mark != self.mark {
            self.mark = mark;
            self.turns = stage.barrier.pulse.clock.turns();
            self.looks = 0;
            self.naps = 0;
            return false;
        }
        if !self.has_ticked(stage) {
            return false;
        }
        if !self.are_settled(stage, actor) || mark_of(stage, actor) != mark {
            return false;
        }
        self.looks = self.looks.saturating_add(1);
        true
    }

    /// Looks at the run for a ring that waits, and notes where the run is at rest: each ring has ended, or waits in vain.
    fn look_around<R: Wait>(&mut self, rt: &R, stage: &Stage<'_>, actor: &mut Actor)
        ensures { Went actor.old actor.new }
    {
        if !self.look(stage, actor) {
            return;
        }
        let Some(mark) = self.mark else {
            return;
        };
        if self.looks == 1 {
            stage.barrier.pulse.give_up(rt, mark);
        }
        if self.looks < LOOKS || !stage.barrier.pulse.have_given_up(rt, mark) {
            return;
        }
        self.is_at_rest = mark_of(stage, actor) == self.mark;
    }

    /// Begins again, since something went on.
    fn begin_again(&mut self, stage: &Stage<'_>) {
        stage.barrier.pulse.go_on();
        *self = Watch::new();
    }

    /// Whether it makes its next try at once.
    fn is_quick(&mut self) -> bool {
        if QUICK <= self.tries {
            return false;
        }
        self.tries += 1;
        for _pause in 0..PAUSES {
            hint::spin_loop();
        }
        true
    }

    /// Sleeps until a completion of the ring is posted, for a millisecond at most. One that is there it takes.
    fn nap<R: Wait>(
        &mut self,
        rt: &R,
        stage: &Stage<'_>,
        actor: &mut Actor,
    ) -> Result<(), AllocError>
        ensures { Went actor.old actor.new }
    {
        let most = Duration::from_micros(NAP << self.naps.min(4));
        self.naps = self.naps.saturating_add(1);
        if actor.take_within(rt, most)? {
            self.begin_again(stage);
        }
        Ok(())
    }

    /// Waits between a try of a ring's line that was in vain, and the next. Where completions were taken, or the run is at rest, it
    /// doesn't wait.
    pub fn wait<R: Wait>(
        &mut self,
        rt: &R,
        stage: &Stage<'_>,
        actor: &mut Actor,
        has_taken: bool,
    ) -> Result<(), AllocError>
        ensures { Went actor.old actor.new }
    {
        if has_taken {
            self.begin_again(stage);
            return Ok(());
        }
        if self.is_at_rest || self.is_quick() {
            return Ok(());
        }
        self.look_around(rt, stage, actor);
        if self.is_at_rest {
            return Ok(());
        }
        if NAPS <= self.naps {
            thread::yield_now();
            return Ok(());
        }
        self.nap(rt, stage, actor)
    }
}
