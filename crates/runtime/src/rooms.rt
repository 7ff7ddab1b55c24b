//! Room for a runtime's threads, and for their end.
ghost use Rattle.std.specs.Prelude.{◌≡◌, ◌≤◌, [], length, vec_capacity, IfOk};
ghost use Rattle.runtime.specs.Crews.{HasRoomFor};

use crate::error::Memory;
use crate::promised::WorkThread;
use crate::started::EndRoom;
use crate::threads::WorkSide;
use board::Worker;
use ready::ReadyQueue;
use std::alloc::Global;

/// Room for the threads of the workers, for what they bring back, and for the end of the board and of the ready queue.
#[derive(Drop)]
pub(crate) struct Rooms {
    pub threads: Vec<WorkThread>,
    pub ended: Vec<WorkSide>,
    pub end: EndRoom,
}

/// Room for this many workers.
pub(crate) fn rooms_of(
    alloc: Global,
    queue: &ReadyQueue,
    workers: &Vec<Worker>,
) -> Result<Rooms, Memory>
    ensures threads { IfOk result (λ r. (r.threads.items ≡ []) × (length workers.now.items ≤ vec_capacity r.threads)) }
    ensures ended { IfOk result (λ r. (r.ended.items ≡ []) × (length workers.now.items ≤ vec_capacity r.ended)) }
    ensures end { IfOk result (λ r. HasRoomFor queue.now.places (length workers.now.items) r.end) }
{
    let Ok(end) = end_room(alloc, queue, workers) else {
        return Err(Memory);
    };
    let Ok(threads) = Vec::with_capacity(alloc, workers.len()) else {
        drop(end);
        return Err(Memory);
    };
    let Ok(ended) = Vec::with_capacity(alloc, workers.len()) else {
        drop((end, threads));
        return Err(Memory);
    };
    Ok(Rooms {
        threads,
        ended,
        end,
    })
}

/// Room for the end of a board with these workers, and of this ready queue.
fn end_room(alloc: Global, queue: &ReadyQueue, of: &Vec<Worker>) -> Result<EndRoom, Memory>
    ensures { IfOk result (HasRoomFor queue.now.places (length of.now.items)) }
{
    let Ok(gather) = queue.make_room(alloc, of.len() + 1) else {
        return Err(Memory);
    };
    let Ok(workers) = Vec::with_capacity(alloc, of.len()) else {
        drop(gather);
        return Err(Memory);
    };
    let Ok(passes) = Vec::with_capacity(alloc, of.len() + 1) else {
        drop((gather, workers));
        return Err(Memory);
    };
    Ok(EndRoom {
        workers,
        passes,
        gather,
    })
}
