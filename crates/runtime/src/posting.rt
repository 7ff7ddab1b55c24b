//! The posts of what a thread's turns answered.
ghost use Rattle.std.specs.Prelude.{◌≡◌, []};

use crate::locks::PostLocks;
use crate::shared::Context;
use controls::{Point, Turnstile};
use outbox::{Outbox, deliver_all};
use std::sync::Wait;
use std::thread;

/// Goes through the turnstile with each answered request, before any is posted.
fn pass_all<G: Turnstile>(turnstile: &G, outbox: &Outbox) {
    for place in 0..outbox.len() {
        if let Some(req) = outbox.get(place) {
            turnstile.pass(Point::Post, req);
        }
    }
}

/// Posts all answered requests of this ring, and wakes its client, where that may sleep. False where that found no memory: then the
/// others are still in the outbox.
fn post_ring<R: Wait>(rt: &R, posts: &PostLocks, outbox: &mut Outbox, ring: u16) -> bool
    ensures places { outbox.new.places ≡ outbox.old.places }
{
    let Some(mut posting) = posts.lock(rt, ring) else {
        return false;
    };
    let before = outbox.len();
    let is_done = deliver_all(outbox, ring, &mut posting.ring).is_ok();
    posts.note(ring, before.saturating_sub(outbox.len()) as u64);
    posting.caller.call();
    is_done
}

/// Posts all answered requests, each to the completion ring of its own ring, and takes the lock of a ring once for all that are its own.
/// A post for which no memory is found is tried again, until it is: the ring has room again once its client takes, and a request
/// that was answered and never posted would be found by no one.
pub(crate) fn post_all<R: Wait, G: Turnstile>(context: Context<'_, R, G>, outbox: &mut Outbox)
    ensures empty { outbox.new.items ≡ [] }
    ensures places { outbox.new.places ≡ outbox.old.places }
{
    pass_all(context.turnstile, outbox);
    for _ in context.rt.forever() {
        let Some(req) = outbox.first() else {
            return;
        };
        if post_ring(context.rt, &context.shared.posts, outbox, req.ring) {
            continue;
        }
        thread::yield_now();
    }
    unreachable!()
}
