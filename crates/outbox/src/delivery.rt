//! Answered requests are posted to their completion rings.
ghost use Rattle.std.specs.Prelude.{◌≡◌, ◌<◌, ℕ, length, take, drop, slice_get, IfOk, IfSome, OnOk, OnErr};
ghost use Rattle.compring.specs.Posts.{place_in};
ghost use Rattle.outbox.specs.Outbox.{HasPosted, Delivers, of_ring, others};

use crate::error::Memory;
use crate::requests::Outbox;
use compring::{CompletionRing, Place};

/// Posts the oldest request, and takes it out. The completion ring is that of the request's own ring, which `first` tells. `Memory`
/// comes only where it is full, and changes nothing.
pub fn deliver(outbox: &mut Outbox, ring: &mut CompletionRing) -> Result<Place, Memory>
    requires some { 0 < length outbox.old.items }
    requires own { IfSome (slice_get outbox.old.items 0) (λ r. r.ring ≡ ring.old.owner) }
    ensures place { IfOk result (λ place. place ≡ place_in ring.old) }
    ensures posted { OnOk result (HasPosted (take 1 outbox.old.items) ring.old ring.new) }
    ensures rest { OnOk result (outbox.new ≡ record outbox.old { items = drop 1 outbox.old.items }) }
    ensures memory { OnErr result (length ring.old.ring ≡ ring.old.size) }
    ensures unchanged { OnErr result ((outbox.new ≡ outbox.old) × (ring.new ≡ ring.old)) }
{
    let Some(req) = outbox.first() else {
        unreachable!()
    };
    let Ok(place) = ring.post(req) else {
        return Err(Memory);
    };
    outbox.items.pop_front();
    Ok(place)
}

/// Posts all requests of the ring with the number `of` to the completion ring of that ring, in order, and takes them out, so that
/// its lock is taken once for all of them. The others stay, in order. `Memory` comes only where it is full: then those before the
/// one that found no room were posted, and everything else stays.
pub fn deliver_all(outbox: &mut Outbox, of: u16, ring: &mut CompletionRing) -> Result<(), Memory>
    requires own { ring.old.owner ≡ of }
    ensures posted { OnOk result (HasPosted (of_ring of outbox.old.items) ring.old ring.new) }
    ensures rest { OnOk result (outbox.new ≡ record outbox.old { items = others of outbox.old.items }) }
    ensures memory { OnErr result ((i : ℕ) × (i < length outbox.old.items) × Delivers of i outbox.old outbox.new ring.old ring.new) }
    ensures full { OnErr result (length ring.new.ring ≡ ring.new.size) }
{
    let count = outbox.items.len();
    for n in 0..count {
        let Some(req) = outbox.first() else {
            unreachable!()
        };
        if req.ring == of {
            let Ok(_place) = ring.post(req) else {
                outbox.items.rotate_left(count - n);
                return Err(Memory);
            };
            outbox.items.pop_front();
        } else {
            outbox.items.rotate_left(1);
        }
    }
    Ok(())
}
