//! What is kept of a run, and the events of its requests.
ghost use Rattle.std.specs.Prelude.{◌≡◌, true, IfOk, OnErr};
ghost use Rattle.history.specs.Legal.{shut_for};
ghost use Rattle.model.specs.{Decided, MayFollow, is_step};

use crate::pipe::Pipe;
use crate::ring::Ring;
use crate::steps::ring_of;
use history::Event;
use std::alloc::AllocError;
use std::marker::Model;

#[derive(Drop)]
pub struct State {
    pub(crate) rings: Vec<Ring>,
    pub(crate) pipes: Vec<Pipe>,
    pub(crate) clock: u32,
    pub(crate) shut: bool,
}

impl Model for State {
    ghost use Rattle.model.specs.Machine.{Machine};

    ghost Value = { Machine };

    ghost view = { λ s. record { rings = s.rings.items; pipes = s.pipes.items; clock = s.clock; shut = s.shut } };
}

impl State {
    /// An event of the requests of one ring is carried out where it may come, and then the answer is true. Else nothing changes.
    /// An error comes for an event that may come, and then nothing changes either.
    #[tactic(auto, using(crate::proofs::RingWrites::misses, crate::proofs::RingWrites::follows_if, crate::proofs::RingWrites::same_if, crate::proofs::StepEvents::step_decides, crate::proofs::StepEvents::step_follows, crate::proofs::StepEvents::step_missing))]
    pub fn step(&mut self, event: &Event) -> Result<bool, AllocError>
        requires timely { self.old.shut ≡ shut_for event.now }
        requires one_ring { is_step event.now ≡ true }
        ensures decided { IfOk result (λ done. Decided done self.old event.now self.new) }
        ensures wanting { OnErr result (MayFollow self.old event.now) }
        ensures same { OnErr result (self.new ≡ self.old) }
    {
        let i = ring_of(event) as usize;
        if i >= self.rings.len() {
            return Ok(false);
        }
        self.rings[i].step(self.clock, event)
    }
}
