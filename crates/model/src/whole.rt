//! The events of no one request, and the one that makes a request.
ghost use Rattle.std.specs.Prelude.{◌≡◌, false, IsTrue, ◌↔◌, IfOk, OnErr};
ghost use Rattle.std.specs.List.{list_any};
ghost use Rattle.model.specs.Agrees.{Decided, MayFollow};
ghost use Rattle.history.specs.Legal.{FitsOp};
ghost use Rattle.model.specs.Moves.{runs_in};
ghost use Rattle.history.specs.declared.event.Event.TheVariants.{Submit, Tick, Shut};

use crate::found::Found;
use crate::request::{Request, RequestStage};
use crate::ring::Ring;
use crate::shared::Shared;
use crate::state::State;
use entry::{Op, Sqe, by_opcode};
use history::{Bytes, Req};
use limits::TICK;
use std::alloc::{AllocError, Global};

impl State {
    /// The clock is set.
    pub fn tick(&mut self, to: u32) -> bool
        requires { self.old.shut ≡ false }
        ensures { Decided result self.old (Tick to) self.new }
    {
        if to < self.clock || to > TICK {
            return false;
        }
        self.clock = to;
        true
    }

    /// The end, where no request runs.
    #[tactic(auto, using(crate::proofs::WideEvents::shut_carries, crate::proofs::WideEvents::shut_refuses))]
    pub fn shut_down(&mut self) -> bool
        requires { self.old.shut ≡ false }
        ensures { Decided result self.old Shut self.new }
    {
        if any_runs(&self.rings) {
            return false;
        }
        self.shut = true;
        true
    }

    /// An entry is handed in with its buffer.
    pub fn submit(
        &mut self,
        alloc: Global,
        req: Req,
        sqe: Sqe,
        bytes: &Bytes,
        last: bool,
    ) -> Result<bool, AllocError>
        requires { self.old.shut ≡ false }
        ensures decided { IfOk result (λ done. Decided done self.old (Submit req sqe bytes.now last) self.new) }
        ensures wanting { OnErr result (MayFollow self.old (Submit req sqe bytes.now last)) }
        ensures same { OnErr result (self.new ≡ self.old) }
    {
        let i = req.ring as usize;
        if i >= self.rings.len() {
            return Ok(false);
        }
        if req.k != self.rings[i].len() as u64 || !fits(sqe.op(), bytes.as_slice().len()) {
            return Ok(false);
        }
        let request = Request {
            sqe,
            bytes: Shared::copy(alloc, bytes.as_slice())?,
            last,
            stage: RequestStage::Waits,
            found: Found::none_yet(alloc),
            fired: false,
            taken: Bytes::empty(alloc),
        };
        self.rings[i].push(request)?;
        Ok(true)
    }
}

fn any_runs(rings: &[Ring]) -> bool
    ensures { result ≡ list_any runs_in rings.now }
{
    rings.iter().any(|ring| ring.any_runs())
}

macro_rules! fits_buffer {
    ([no_buffer] ($len:ident)) => { $len == 0 };
    ([reads $wanted:ident] ($len:ident)) => { $len == $wanted as usize };
    ([writes $wanted:ident] ($len:ident)) => { $len == $wanted as usize };
    ([any_buffer] ($len:ident)) => { true };
}

/// A buffer of this many bytes fits the operation.
fn fits(op: Op, len: usize) -> bool
    ensures { IsTrue result ↔ FitsOp op len }
{
    by_opcode!(buffer of op => fits_buffer!(len))
}
