//! What the threads of all rings share.
ghost use Rattle.std.specs.Prelude.{◌≡◌, Some, IfSome, slice_get};

use crate::barrier::Barrier;
use history::Req;
use script::Script;
use std::alloc::Global;

/// Where memory comes from, the script, the request of each entry, how often a line is tried, and the barrier.
#[derive(Clone, Copy)]
pub(crate) struct Stage<'a> {
    pub alloc: Global,
    pub script: &'a Script,
    pub requests: &'a [Option<Req>],
    pub turns: u32,
    pub barrier: &'a Barrier,
}

/// The request of the entry at a place.
pub(crate) fn request_for(requests: &[Option<Req>], place: u32) -> Option<Req>
    ensures { IfSome result (λ r. slice_get requests.now place ≡ Some (Some r)) }
{
    match requests.get(place as usize) {
        Some(request) => *request,
        None => None,
    }
}
