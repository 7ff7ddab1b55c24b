//! The lines of the actors of a script.
ghost use Rattle.std.specs.Prelude.{◌≡◌, ◌==◌, ℕ, ◌+◌, ◌++◌, [], ◌∷◌, length, if◌then◌else◌, OnOk};
ghost use Rattle.script_text.specs.{deeds_and, is_same_actor, submits, IsKnown, deed, deeds, deeds_at, pending_at};

use crate::actor::Actor;
use script::Act;
use std::alloc::{AllocError, Global};

/// The lines of each ring, the lines of the clock, and what each ring has not submitted yet.
#[derive(Drop)]
pub struct Acts {
    pub by_ring: Vec<Vec<Act>>,
    pub clock: Vec<Act>,
    pub pending: Vec<Vec<u32>>,
}

impl Acts {
    /// One more ring.
    pub fn push_ring(&mut self, alloc: Global) -> Result<(), AllocError>
        ensures acts { OnOk result ((ring : ℕ) → deeds_at self.new.by_ring.items ring ≡ deeds_at self.old.by_ring.items ring) }
        ensures pending { OnOk result ((ring : ℕ) → pending_at self.new.pending.items ring ≡ pending_at self.old.pending.items ring) }
        ensures clock { self.new.clock ≡ self.old.clock }
        ensures rings { OnOk result (length self.new.by_ring.items ≡ length self.old.by_ring.items + 1) }
        ensures batches { OnOk result (length self.new.pending.items ≡ length self.old.pending.items + 1) }
    {
        self.by_ring.push(Vec::new(alloc))?;
        self.pending.push(Vec::new(alloc))?;
        Ok(())
    }

    /// One more line of an actor.
    pub fn push(&mut self, actor: Actor, act: Act) -> Result<(), AllocError>
        requires known { IsKnown actor (length self.old.by_ring.items) }
        ensures acts { OnOk result ((ring : ℕ) → deeds_at self.new.by_ring.items ring ≡ deeds_and (is_same_actor (Actor.Ring ring) actor) (deeds_at self.old.by_ring.items ring) (deed act)) }
        ensures clock { OnOk result (deeds self.new.clock.items ≡ deeds_and (is_same_actor Actor.Clock actor) (deeds self.old.clock.items) (deed act)) }
        ensures pending { self.new.pending ≡ self.old.pending }
        ensures rings { OnOk result (length self.new.by_ring.items ≡ length self.old.by_ring.items) }
    {
        match actor {
            Actor::Clock => self.clock.push(act)?,
            Actor::Ring(ring) => {
                if let Some(acts) = self.by_ring.get_mut(ring) {
                    acts.push(act)?;
                }
            }
            _ => {}
        }
        Ok(())
    }

    /// An entry of an actor waits for its `submit`.
    pub fn push_pending(&mut self, actor: Actor, place: u32) -> Result<(), AllocError>
        requires known { IsKnown actor (length self.old.pending.items) }
        ensures pending { OnOk result ((ring : ℕ) → pending_at self.new.pending.items ring
            ≡ (if is_same_actor (Actor.Ring ring) actor then pending_at self.old.pending.items ring ++ place ∷ [] else pending_at self.old.pending.items ring)) }
        ensures acts { self.new.by_ring ≡ self.old.by_ring }
        ensures clock { self.new.clock ≡ self.old.clock }
        ensures batches { OnOk result (length self.new.pending.items ≡ length self.old.pending.items) }
    {
        if let Actor::Ring(ring) = actor {
            if let Some(pending) = self.pending.get_mut(ring) {
                pending.push(place)?;
            }
        }
        Ok(())
    }

    /// What a ring has not submitted yet, which it is rid of.
    fn take_pending(&mut self, alloc: Global, ring: usize) -> Vec<u32>
        ensures batch { result.items ≡ pending_at self.old.pending.items ring }
        ensures pending { (other : ℕ) → pending_at self.new.pending.items other ≡ (if other == ring then [] else pending_at self.old.pending.items other) }
        ensures acts { self.new.by_ring ≡ self.old.by_ring }
        ensures clock { self.new.clock ≡ self.old.clock }
        ensures batches { length self.new.pending.items ≡ length self.old.pending.items }
    {
        match self.pending.get_mut(ring) {
            Some(pending) => std::mem::replace(pending, Vec::new(alloc)),
            None => Vec::new(alloc),
        }
    }

    /// A ring submits what it has not submitted yet.
    pub fn submit(&mut self, alloc: Global, actor: Actor) -> Result<(), AllocError>
        requires known { IsKnown actor (length self.old.by_ring.items) }
        ensures acts { OnOk result ((ring : ℕ) → deeds_at self.new.by_ring.items ring ≡ deeds_and (is_same_actor (Actor.Ring ring) actor) (deeds_at self.old.by_ring.items ring) (submits (pending_at self.old.pending.items ring))) }
        ensures pending { OnOk result ((ring : ℕ) → pending_at self.new.pending.items ring ≡ (if is_same_actor (Actor.Ring ring) actor then [] else pending_at self.old.pending.items ring)) }
        ensures clock { OnOk result (deeds self.new.clock.items ≡ deeds self.old.clock.items) }
        ensures rings { OnOk result (length self.new.by_ring.items ≡ length self.old.by_ring.items) }
        ensures batches { OnOk result (length self.new.pending.items ≡ length self.old.pending.items) }
    {
        if let Actor::Ring(ring) = actor {
            let batch = self.take_pending(alloc, ring);
            self.push(actor, Act::Submit(batch))?;
        }
        Ok(())
    }
}
