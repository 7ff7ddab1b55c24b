//! The clock's lines, carried out by the poller's thread: one try a turn.
ghost use Rattle.std.specs.Prelude.{◌≡◌, ◌+◌, ◌<◌, ◌≤◌, ◌^◌, ◌||◌, [], min, nat_le, IfOk, IfErr, IfSome, IsTrue, length, true, false};
ghost use Rattle.script.specs.Requests.{AreRequests};
ghost use Rattle.script_run.specs.{IsClockLine, AreClockLines, has_reply, is_ready, line_at, EndsAs, IsAtLine, IsOfPlace, IsUnstuck};

use crate::fault::RunFault;
use crate::stage::request_for;
use board::Phase;
use controls::Clock;
use history::Req;
use script::{Act, Script};
use std::alloc::{AllocError, Global};
use std::sync::Arc;
use std::sync::atomic::{AtomicU64, Ordering};

/// How far a clock has come, as the other threads see it: how many lines it has, and how many of them are left that it may carry out;
/// and how many turns the poller has made.
#[derive(Drop)]
pub(crate) struct Progress {
    lines: u64,
    left: AtomicU64,
    turns: AtomicU64,
}

impl Progress {
    /// Of a clock with this many lines.
    fn new(lines: u64) -> Progress {
        Progress {
            lines,
            left: AtomicU64::new(lines),
            turns: AtomicU64::new(0),
        }
    }

    /// Whether no line is left.
    pub fn is_over(&self) -> bool {
        self.left.load(Ordering::SeqCst) == 0
    }

    /// How many lines are done: carried out, or given up.
    pub fn behind(&self) -> u64 {
        self.lines.saturating_sub(self.left.load(Ordering::SeqCst))
    }

    /// How many turns the poller has made.
    pub fn turns(&self) -> u64 {
        self.turns.load(Ordering::SeqCst)
    }
}

/// A line of the clock: it waits for the reply of a request, or until a timer is armed, or sets the clock. The entry's place
/// stands beside its request.
#[derive(Clone, Copy, PartialEq, Eq)]
pub(crate) enum ClockLine {
    Wait(Req, u32),
    Armed(Req, u32),
    Tick(u32),
}

/// What came of a clock that was to carry these lines out.
pub(crate) enum Ended {
    /// It has come to their end.
    Through,
    /// A line ran out of tries: the place of the entry that it waits for.
    Stuck(u32),
    /// Neither, or it had other lines, or another number of tries.
    Other,
}

/// The lines of a script's clock, which of them is next, how often that was tried, how often it may be, and whether it was stopped.
#[derive(Drop)]
pub(crate) struct LineClock {
    lines: Vec<ClockLine>,
    next: usize,
    tries: u32,
    most: u32,
    is_stuck: bool,
    progress: Arc<Progress>,
}

/// A line of the clock. None where it waits for an entry that is in no ring.
fn line_of(script: &Script, requests: &[Option<Req>], act: &Act) -> Option<ClockLine>
    requires { AreRequests script.now requests.now }
    ensures { IfSome result (IsClockLine script.now act.now) }
{
    let _ = script;
    match act {
        Act::Wait(place) => Some(ClockLine::Wait(request_for(requests, *place)?, *place)),
        Act::Armed(place) => Some(ClockLine::Armed(request_for(requests, *place)?, *place)),
        Act::Tick(to) => Some(ClockLine::Tick(*to)),
        Act::Submit(_) => None,
    }
}

/// The lines of the script's clock.
pub(crate) fn lines_of(
    alloc: Global,
    script: &Script,
    requests: &[Option<Req>],
) -> Result<Vec<ClockLine>, RunFault>
    requires { AreRequests script.now requests.now }
    ensures lines { IfOk result (λ v. AreClockLines script.now script.now.clock.items v.items) }
    ensures unstuck { IfErr result IsUnstuck }
{
    let mut lines = Vec::with_capacity(alloc, script.clock.len())?;
    for act in &script.clock {
        let Some(line) = line_of(script, requests, act) else {
            return Err(RunFault::Shared);
        };
        lines.push(line)?;
    }
    Ok(lines)
}

/// Whether these are the same lines.
fn are_same(lines: &[ClockLine], others: &[ClockLine]) -> bool
    ensures { IsTrue result → lines.now ≡ others.now }
{
    match lines {
        [] => others.is_empty(),
        [line, lines @ ..] => match others {
            [] => false,
            [other, others @ ..] => *line == *other && are_same(lines, others),
        },
    }
}

/// The place of the entry that the line waits for, if it waits for one.
fn place_of(line: &ClockLine) -> Option<u32>
    ensures { IfSome result (IsOfPlace line.now) }
{
    match line {
        ClockLine::Wait(_, place) | ClockLine::Armed(_, place) => Some(*place),
        ClockLine::Tick(_) => None,
    }
}

impl LineClock {
    /// A clock of these lines, before the first, and its progress.
    pub fn new(
        alloc: Global,
        lines: Vec<ClockLine>,
        turns: u32,
    ) -> Result<(LineClock, Arc<Progress>), AllocError>
        ensures { IfOk result (λ t. IsAtLine t.0.lines.items t.0.next t.0.tries t.0.most t.0.is_stuck []) }
    {
        let progress = Arc::new(alloc, Progress::new(lines.len() as u64))?;
        let theirs = Arc::try_clone(&progress)?;
        let clock = LineClock {
            lines,
            next: 0,
            tries: 0,
            most: turns,
            is_stuck: false,
            progress: theirs,
        };
        Ok((clock, progress))
    }

    /// Its next line. None where it has come to the end of its lines, or stopped.
    fn line(&self) -> Option<ClockLine>
        ensures { result ≡ line_at self.now.is_stuck self.now.lines.items self.now.next }
    {
        if self.is_stuck {
            return None;
        }
        self.lines.get(self.next).copied()
    }

    /// What came of it, if these were its lines, and each was to be tried so often.
    pub fn ended(&self, lines: &[ClockLine], turns: u32) -> Ended
        ensures { EndsAs self.now.lines.items self.now.next self.now.most self.now.is_stuck lines.now turns result }
    {
        if !are_same(self.lines.as_slice(), lines) || self.most != turns {
            return Ended::Other;
        }
        let Some(line) = lines.get(self.next) else {
            return Ended::Through;
        };
        match place_of(line) {
            Some(place) if self.is_stuck => Ended::Stuck(place),
            _ => Ended::Other,
        }
    }

    /// Continues to the line after this one.
    fn go_on(&mut self)
        requires { self.old.next < length self.old.lines.items }
        ensures same { (self.new.lines ≡ self.old.lines) × (self.new.most ≡ self.old.most) × (self.new.is_stuck ≡ self.old.is_stuck) }
        ensures next { (self.new.next ≡ self.old.next + 1) × (self.new.tries ≡ 0) }
    {
        self.next += 1;
        self.tries = 0;
        self.progress.left.fetch_sub(1, Ordering::SeqCst);
    }

    /// Stops before its next line.
    fn stop(&mut self)
        ensures same { (self.new.lines ≡ self.old.lines) × (self.new.next ≡ self.old.next) × (self.new.tries ≡ self.old.tries) × (self.new.most ≡ self.old.most) }
        ensures stuck { self.new.is_stuck ≡ true }
    {
        self.is_stuck = true;
        self.progress.left.store(0, Ordering::SeqCst);
    }

    /// Continues where the line is done. Else it counts a try that was in vain.
    fn count(&mut self, is_done: bool)
        requires { self.old.next < length self.old.lines.items }
        ensures small { self.old.most < 2 ^ 32 }
        ensures same { (self.new.lines ≡ self.old.lines) × (self.new.most ≡ self.old.most) }
        ensures gone { is_done ≡ true → (self.new.next ≡ self.old.next + 1) × (self.new.tries ≡ 0) × (self.new.is_stuck ≡ self.old.is_stuck) }
        ensures still { is_done ≡ false → (self.new.next ≡ self.old.next) × (self.new.tries ≡ min (self.old.tries + 1) 4294967295) × (self.new.is_stuck ≡ (nat_le self.old.most self.new.tries || self.old.is_stuck)) }
    {
        let most = self.most;
        if is_done {
            self.go_on();
            return;
        }
        self.tries = self.tries.saturating_add(1);
        if most <= self.tries {
            self.stop();
        }
    }
}

/// Whether the request that was asked for has its reply.
pub(crate) fn has_reply(phase: Option<Phase>) -> bool
    ensures { result ≡ has_reply phase }
{
    match phase {
        Some(Phase::Done(_)) | Some(Phase::Gone) => true,
        _ => false,
    }
}

/// Whether the timer that was asked for is armed, or has its reply.
fn is_ready(phase: Option<Phase>) -> bool
    ensures { result ≡ is_ready phase }
{
    match phase {
        Some(Phase::Armed(_)) | Some(Phase::Done(_)) | Some(Phase::Gone) => true,
        _ => false,
    }
}

impl Clock for LineClock {
    ghost use Rattle.script_run.specs.{line_at, asked_of, at_line_stays, IsAtLine};

    ghost asked = { λ c. asked_of (line_at c.is_stuck c.lines.items c.next) };

    ghost follows = { λ c h. IsAtLine c.lines.items c.next c.tries c.most c.is_stuck h };

    ghost stays = { λ c s e h l none k. at_line_stays c.lines.items c.next c.tries c.most c.is_stuck s e h l none k };

    fn ask(&self) -> Option<Req> {
        match self.line()? {
            ClockLine::Wait(req, _) | ClockLine::Armed(req, _) => Some(req),
            // Any request will do: a poller whose clock asks for nothing may sleep, and would never set it.
            ClockLine::Tick(_) => Some(Req { ring: 0, k: 0 }),
        }
    }

    fn advance(&mut self, _now: u32, phase: Option<Phase>) -> Option<u32> {
        self.progress.turns.fetch_add(1, Ordering::SeqCst);
        match self.line()? {
            ClockLine::Wait(_, _) => {
                self.count(has_reply(phase));
                None
            }
            ClockLine::Armed(_, _) => {
                self.count(is_ready(phase));
                None
            }
            ClockLine::Tick(to) => {
                self.go_on();
                Some(to)
            }
        }
    }
}
