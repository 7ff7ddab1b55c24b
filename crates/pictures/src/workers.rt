//! Which worker runs which request in a history.
ghost use Rattle.std.specs.Prelude.{◌≡◌, OnOk, Some, None, set};
ghost use Rattle.pictures.specs.Marks.{is_at, place_of, put_at, taken_up, let_go};

use history::{Event, Req};
use std::alloc::AllocError;

/// Whether a worker is at this: a request, or nothing.
fn is_at(worker: Option<Req>, wanted: Option<Req>) -> bool
    ensures { result ≡ is_at worker wanted }
{
    match (worker, wanted) {
        (None, None) => true,
        (Some(a), Some(b)) => a.ring == b.ring && a.k == b.k,
        _ => false,
    }
}

/// The place of the first worker that is at this; their number where none is.
pub fn place_of(workers: &[Option<Req>], wanted: Option<Req>) -> usize
    ensures { result ≡ place_of wanted workers.now }
{
    for place in 0..workers.len() {
        if is_at(workers[place], wanted) {
            return place;
        }
    }
    workers.len()
}

/// The workers once an event has begun: a request is taken up by the first that runs none, or by one more.
pub fn take_up(workers: &mut Vec<Option<Req>>, event: &Event) -> Result<(), AllocError>
    ensures { OnOk result (workers.new.items ≡ taken_up workers.old.items event.now) }
{
    let Event::Begin(req) = event else {
        return Ok(());
    };
    put(workers, *req)
}

/// The first worker that runs none takes the request, or one more does.
fn put(workers: &mut Vec<Option<Req>>, req: Req) -> Result<(), AllocError>
    ensures { OnOk result (workers.new.items ≡ put_at workers.old.items (place_of None workers.old.items) (Some req)) }
{
    let place = place_of(workers, None);
    if place < workers.len() {
        workers[place] = Some(req);
    } else {
        workers.push(Some(req))?;
    }
    Ok(())
}

/// The workers once an event is over: who parks or answers a request runs none.
pub fn let_go(workers: &mut Vec<Option<Req>>, event: &Event)
    ensures { workers.new.items ≡ let_go workers.old.items event.now }
{
    match event {
        Event::Park(req) => leave(workers, *req),
        Event::Reply { req, .. } => leave(workers, *req),
        _ => {}
    }
}

/// Who runs the request leaves it.
fn leave(workers: &mut Vec<Option<Req>>, req: Req)
    ensures { workers.new.items ≡ set workers.old.items (place_of (Some req) workers.old.items) None }
{
    let place = place_of(workers, Some(req));
    if place < workers.len() {
        workers[place] = None;
    }
}
