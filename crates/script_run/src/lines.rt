//! The lines of a ring, carried out one after another.
ghost use Rattle.std.specs.Prelude.{◌≡◌, IfOk, IfErr, OnOk, None};
ghost use Rattle.script.specs.declared.act.Act.TheVariants.{Submit, Wait};
ghost use Rattle.script.specs.Requests.{AreRequests};
ghost use Rattle.script_run.specs.{AreEntries, Carries, IsNewActor, IsCarried, CarriedOut, IfStuck, IsStuckLine, RanOut};
ghost use Rattle.script_run.specs.declared.lines.Halt.{Halt};

use crate::actor::{Actor, Batch, Tried};
use crate::stage::{Stage, request_for};
use crate::watch::Watch;
use script::Act;
use std::alloc::{AllocError, AllocFailed};
use std::sync::Wait;

/// Why a ring or the clock stopped before the end of its lines.
#[derive(Clone, Copy)]
pub(crate) enum Halt {
    /// A line ran out of tries: the place of the entry that it waits for, or of the first one that it submits.
    Stuck(u32),
    /// The board refused what a script may ask for.
    Refused,
    /// Memory ran out.
    Memory,
    /// The threads didn't all begin.
    Thread,
    /// Another ring stopped for one of the reasons above.
    Stopped,
}

impl From<AllocError> for Halt {
    ghost from_gives = { λ _ halt. halt ≡ Halt.Memory };

    fn from(_error: AllocError) -> Halt {
        Halt::Memory
    }
}

impl<T: Drop> From<AllocFailed<T>> for Halt {
    ghost from_gives = { λ _ halt. halt ≡ Halt.Memory };

    fn from(_error: AllocFailed<T>) -> Halt {
        Halt::Memory
    }
}

impl Halt {
    /// Whether the other rings are to stop too.
    pub fn stops_all(self) -> bool {
        match self {
            Halt::Stuck(_) | Halt::Stopped => false,
            Halt::Refused | Halt::Memory | Halt::Thread => true,
        }
    }
}

/// Carries the lines of a ring out, once the threads of all rings have begun. Where it is stopped for want of memory, or refused, it
/// tells the others to stop.
pub(crate) fn carry_out<R: Wait>(rt: &R, stage: &Stage<'_>, mut actor: Actor) -> Actor
    requires { AreRequests stage.now.script.now stage.now.requests.now }
    ensures { CarriedOut stage.now.script.now stage.now.turns actor result }
{
    match carry_lines(rt, stage, &mut actor) {
        Ok(()) => {
            actor.halt = None;
            actor
        }
        Err(halt) => {
            if halt.stops_all() {
                stage.barrier.stop();
            }
            actor.halt = Some(halt);
            actor
        }
    }
}

/// Carries the ring's lines out, up to the first that stops.
fn carry_lines<R: Wait>(rt: &R, stage: &Stage<'_>, actor: &mut Actor) -> Result<(), Halt>
    requires { AreRequests stage.now.script.now stage.now.requests.now }
    ensures same { (actor.new.client.board ≡ actor.old.client.board) × (actor.new.client.ring ≡ actor.old.client.ring) }
    ensures carried { OnOk result (IsNewActor stage.now.script.now actor.old → IsCarried stage.now.script.now actor.new) }
    ensures stuck { IfErr result (IfStuck (λ p. IsNewActor stage.now.script.now actor.old → IsStuckLine stage.now.script.now stage.now.turns p actor.new)) }
{
    if !stage.barrier.wait(rt) {
        return Err(Halt::Thread);
    }
    let Some(lines) = stage.script.acts.get(usize::from(actor.client.ring())) else {
        return Ok(());
    };
    for act in lines {
        carry_line(rt, stage, actor, act)?;
        stage.barrier.pulse.go_on();
    }
    Ok(())
}

/// Carries one line out.
fn carry_line<R: Wait>(rt: &R, stage: &Stage<'_>, actor: &mut Actor, act: &Act) -> Result<(), Halt>
    requires { AreRequests stage.now.script.now stage.now.requests.now }
    ensures same { (actor.new.client.board ≡ actor.old.client.board) × (actor.new.client.ring ≡ actor.old.client.ring) }
    ensures carried { OnOk result (Carries stage.now.script.now act.now actor.old actor.new) }
    ensures stuck { IfErr result (IfStuck (λ p. RanOut stage.now.script.now stage.now.turns act.now p actor.old actor.new)) }
{
    match act {
        Act::Submit(places) => submit_line(rt, stage, actor, places),
        Act::Wait(place) => wait(rt, stage, actor, *place),
        Act::Armed(_) | Act::Tick(_) => Err(Halt::Refused),
    }
}

/// Submits the entries at these places as one batch. Where a cell isn't free it is tried again, and before each further try the
/// completions that are there are taken: it waits as `Watch::wait` does. No try is made once all rings are to stop.
fn submit_line<R: Wait>(
    rt: &R,
    stage: &Stage<'_>,
    actor: &mut Actor,
    places: &Vec<u32>,
) -> Result<(), Halt>
    ensures same { (actor.new.client.board ≡ actor.old.client.board) × (actor.new.client.ring ≡ actor.old.client.ring) }
    ensures carried { OnOk result (Carries stage.now.script.now (Submit places.now) actor.old actor.new) }
    ensures stuck { IfErr result (IfStuck (λ p. RanOut stage.now.script.now stage.now.turns (Submit places.now) p actor.old actor.new)) }
{
    let Some(first) = places.first() else {
        return Err(Halt::Refused);
    };
    let mut batch = batch_of(stage, places)?;
    let mut watch = Watch::new();
    for _try in 0..stage.turns {
        if stage.barrier.is_stopped() {
            return Err(Halt::Stopped);
        }
        batch = match actor.try_submit(batch) {
            Tried::Submitted => return Ok(()),
            Tried::Refused => return Err(Halt::Refused),
            Tried::Full(batch) => batch,
        };
        let has_taken = actor.take_all(rt)?;
        watch.wait(rt, stage, actor, has_taken)?;
    }
    Err(Halt::Stuck(*first))
}

/// The entries at these places, with their buffers.
fn batch_of(stage: &Stage<'_>, places: &[u32]) -> Result<Batch, Halt>
    ensures entries { IfOk result (λ batch. AreEntries stage.now.script.now places.now batch.items) }
    ensures free { IfErr result (IfStuck (λ _. ⊥)) }
{
    let mut batch = Vec::new(stage.alloc);
    for place in places {
        let Some(entry) = stage.script.entries.get(*place as usize) else {
            return Err(Halt::Refused);
        };
        let buffer = Vec::from_slice(stage.alloc, entry.buffer.as_slice())?;
        batch.push((entry.sqe, buffer))?;
    }
    Ok(batch)
}

/// Waits for the reply to the entry at a place. At each try the completions that are there are taken, and between two tries it waits as
/// `Watch::wait` does. No try is made once all rings are to stop.
fn wait<R: Wait>(rt: &R, stage: &Stage<'_>, actor: &mut Actor, place: u32) -> Result<(), Halt>
    requires { AreRequests stage.now.script.now stage.now.requests.now }
    ensures same { (actor.new.client.board ≡ actor.old.client.board) × (actor.new.client.ring ≡ actor.old.client.ring) }
    ensures carried { OnOk result (Carries stage.now.script.now (Wait place) actor.old actor.new) }
    ensures stuck { IfErr result (IfStuck (λ p. RanOut stage.now.script.now stage.now.turns (Wait place) p actor.old actor.new)) }
{
    let Some(req) = request_for(stage.requests, place) else {
        return Err(Halt::Refused);
    };
    let mut watch = Watch::new();
    for _try in 0..stage.turns {
        if stage.barrier.is_stopped() {
            return Err(Halt::Stopped);
        }
        let has_taken = actor.take_all(rt)?;
        if actor.sees_reply(req) {
            return Ok(());
        }
        watch.wait(rt, stage, actor, has_taken)?;
    }
    Err(Halt::Stuck(place))
}
