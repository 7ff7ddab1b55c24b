//! Room for the end of a queue.
ghost use Rattle.std.specs.Prelude.{IfOk};
ghost use Rattle.ready.specs.QueueParts.{IsRoom};

use crate::error::Memory;
use crate::span::{MOST, Span};
use history::Req;
use std::alloc::Global;
use std::marker::Model;

/// Room for the end of a queue: for the spans that its passes have left, for those in the queue, and for all requests. Contracts see
/// for how many of each.
#[derive(Drop)]
pub struct GatherRoom {
    pub(crate) rests: Vec<Span>,
    pub(crate) spans: Vec<Span>,
    pub(crate) left: Vec<Req>,
}

impl Model for GatherRoom {
    ghost use Rattle.std.specs.Prelude.{◌≡◌, [], vec_capacity};
    ghost use Rattle.ready.specs.QueueParts.{Room};

    ghost Value = { Room };

    ghost view = { λ r. record { rests = vec_capacity r.rests; spans = vec_capacity r.spans; left = vec_capacity r.left } };

    ghost invariant = { λ r. (r.rests.items ≡ []) × (r.spans.items ≡ []) × (r.left.items ≡ []) };
}

impl GatherRoom {
    /// Room for the spans of this many places and passes.
    pub(crate) fn new(alloc: Global, places: usize, passes: usize) -> Result<GatherRoom, Memory>
        ensures { IfOk result (IsRoom places passes) }
    {
        let Some(spans) = places.checked_add(passes) else {
            return Err(Memory);
        };
        let Some(requests) = spans.checked_mul(usize::from(MOST)) else {
            return Err(Memory);
        };
        Ok(GatherRoom {
            rests: Vec::with_capacity(alloc, passes)?,
            spans: Vec::with_capacity(alloc, places)?,
            left: Vec::with_capacity(alloc, requests)?,
        })
    }
}
