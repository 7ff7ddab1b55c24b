//! The threads of the rings.
ghost use Rattle.std.specs.Prelude.{◌≡◌, ◌≤◌, length, vec_capacity, IfOk, IfErr};
ghost use Rattle.script.specs.Requests.{AreRequests};
ghost use Rattle.script_run.specs.Tries.{AllCarriedOut, CarriedOut};

use crate::actor::Actor;
use crate::lines::carry_out;
use crate::stage::Stage;
use script::Script;
use std::snapshot::Snapshot;
use std::sync::Wait;
use std::thread;
use std::thread::{Promise, PromisedHandle, Scope, Threads};

/// The actor that a ring's thread gives back came of this one, by the lines of this script, each tried so often.
#[derive(Drop)]
struct Carried(Snapshot<Script>, Snapshot<u32>, Snapshot<Actor>);

impl Promise<Actor> for Carried {
    ghost use Rattle.script_run.specs.Tries.{CarriedOut};

    ghost kept_by = { λ p r. CarriedOut p.0.value p.1.value p.2.value r };
}

/// Carries the lines of a client out in a thread of its own, which is given the stage's parts: it takes no struct of references. Where
/// that is refused all rings are told to stop, and the actor comes back, stopped.
fn start<'s, E, R: Threads + Wait + Sync>(
    scope: &'s Scope<'s, E>,
    rt: &'s R,
    stage: &Stage<'s>,
    actor: Actor,
) -> Result<PromisedHandle<Actor, Carried>, Actor>
    requires { AreRequests stage.now.script.now stage.now.requests.now }
    ensures thread { IfOk result (λ t. (t.promise.0.value ≡ stage.now.script.now) × (t.promise.1.value ≡ stage.now.turns) × (t.promise.2.value ≡ actor)) }
    ensures refused { IfErr result (λ h. CarriedOut stage.now.script.now stage.now.turns actor h) }
{
    let Stage {
        alloc,
        script,
        requests,
        turns,
        barrier,
    } = *stage;
    let promise = Carried(
        Snapshot::of(script),
        Snapshot::of(&turns),
        Snapshot::of(&actor),
    );
    match scope.spawn_with(
        promise,
        move || -> Actor
            requires { AreRequests script.now requests.now }
            ensures { CarriedOut script.entry.now turns actor result }
        {
            let stage = Stage {
                alloc,
                script,
                requests,
                turns,
                barrier,
            };
            let actor = carry_out(rt, &stage, actor);
            barrier.pulse.end();
            actor
        },
    ) {
        Ok(thread) => Ok(thread),
        Err(refused) => {
            barrier.stop();
            Err((refused.value)())
        }
    }
}

/// Carries the lines of these clients out, each in a thread of its own, the last first, and waits for all of them.
fn carry_from<'s, E, R: Threads + Wait + Sync>(
    scope: &'s Scope<'s, E>,
    rt: &'s R,
    stage: &Stage<'s>,
    mut actors: Vec<Actor>,
) -> Vec<Actor>
    requires requests { AreRequests stage.now.script.now stage.now.requests.now }
    requires room { length actors.items ≤ vec_capacity actors }
    ensures carried { AllCarriedOut stage.now.script.now stage.now.turns actors.items result.items }
    ensures room { vec_capacity result ≡ vec_capacity actors }
{
    let Some(actor) = actors.pop() else {
        return actors;
    };
    match start(scope, rt, stage, actor) {
        Ok(thread) => {
            let mut actors = carry_from(scope, rt, stage, actors);
            actors.push_reserved(thread.join(rt));
            actors
        }
        Err(actor) => {
            let mut actors = carry_from(scope, rt, stage, actors);
            actors.push_reserved(actor);
            actors
        }
    }
}

/// Carries the lines of all clients out, each in a thread of its own. Where a thread is refused none carries any out.
/// The kit's `map_vec` and `for_each_mut` would run the calls one after another then, and tell no one.
pub(crate) fn carry_all<R: Threads + Wait + Sync>(
    rt: &R,
    stage: &Stage<'_>,
    actors: Vec<Actor>,
) -> Vec<Actor>
    requires requests { AreRequests stage.now.script.now stage.now.requests.now }
    requires room { length actors.items ≤ vec_capacity actors }
    ensures { AllCarriedOut stage.now.script.now stage.now.turns actors.items result.items }
{
    let Stage {
        alloc,
        script,
        requests,
        turns,
        barrier,
    } = *stage;
    thread::scope(
        thread::scope_env(),
        rt,
        move |scope| -> Vec<Actor>
            requires requests { AreRequests script.now requests.now }
            requires room { length actors.items ≤ vec_capacity actors }
            ensures { AllCarriedOut script.entry.now turns actors.items result.items }
        {
            let stage = Stage {
                alloc,
                script,
                requests,
                turns,
                barrier,
            };
            carry_from(scope, rt, &stage, actors)
        },
    )
}
