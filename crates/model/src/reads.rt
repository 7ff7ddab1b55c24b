//! What is kept of a request, and a state in which nothing has happened yet.
ghost use Rattle.std.specs.Prelude.{◌≡◌, None, Some, IfOk, MatchOption, replicate, map, []};
ghost use Rattle.model.specs.{find, fresh, empty_pipe};

use crate::pipe::Pipe;
use crate::request::Request;
use crate::ring::Ring;
use crate::state::State;
use history::Req;
use std::alloc::{AllocError, Global};

impl State {
    /// What is kept of the request.
    pub fn find(&self, req: Req) -> Option<&Request>
        ensures { MatchOption result (find self.now.rings req ≡ None) (λ x. find self.now.rings req ≡ Some x.now) }
    {
        self.rings.get(req.ring as usize)?.get(req.k)
    }

    /// Nothing has happened yet.
    pub fn new(alloc: Global, rings: u16, caps: &[u32]) -> Result<State, AllocError>
        ensures { IfOk result (λ s. s ≡ fresh rings caps.now) }
    {
        Ok(State {
            rings: empty_rings(alloc, rings)?,
            pipes: empty_pipes(alloc, caps)?,
            clock: 0,
            shut: false,
        })
    }
}

fn empty_rings(alloc: Global, rings: u16) -> Result<Vec<Ring>, AllocError>
    ensures { IfOk result (λ v. v.items ≡ replicate rings []) }
{
    let mut all = Vec::new(alloc);
    for i in 0..rings {
        all.push(Ring::new(alloc))?;
    }
    Ok(all)
}

fn empty_pipes(alloc: Global, caps: &[u32]) -> Result<Vec<Pipe>, AllocError>
    ensures { IfOk result (λ v. v.items ≡ map empty_pipe caps.now) }
{
    let mut all = Vec::new(alloc);
    for cap in caps {
        all.push(Pipe::new(alloc, *cap))?;
    }
    Ok(all)
}
