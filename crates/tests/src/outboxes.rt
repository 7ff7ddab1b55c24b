//! Six requests of two rings.
ghost use Rattle.std.specs.Prelude.{◌≡◌};

use compring::{CompletionRing, Place};
use history::Req;
use outbox::{Outbox, deliver, deliver_all};
use std::test::Fail;

fn of(ring: u16, k: u64) -> Req {
    Req { ring, k }
}

/// Delivers the oldest request, which has to be of this completion ring's own ring.
fn deliver_to(outbox: &mut Outbox, ring: &mut CompletionRing) -> Result<Place, Fail>
    ensures { ring.new.owner ≡ ring.old.owner }
{
    let Some(req) = outbox.first() else {
        return Err(Fail::new("nothing waits"));
    };
    if req.ring != ring.owner() {
        return Err(Fail::new("the oldest request is of another ring"));
    }
    Ok(deliver(outbox, ring)?)
}

#[test]
fn requests_go_to_their_rings_in_order(rt: HostRuntime) -> Result<(), Fail> {
    let mut outbox = Outbox::new(rt.alloc(), 6)?;
    assert_eq!(rt; outbox.first(), None);
    outbox.put(of(0, 0));
    outbox.put(of(1, 0));
    outbox.put_all(&[of(0, 1), of(1, 1), of(0, 2)]);
    outbox.put(of(1, 2));
    assert!(rt; outbox.is_full());
    let mut zero = CompletionRing::for_ring(rt.alloc(), 2, 0)?;
    let mut one = CompletionRing::for_ring(rt.alloc(), 2, 1)?;
    assert_eq!(rt; outbox.first(), Some(of(0, 0)));
    assert_eq!(rt; deliver_to(&mut outbox, &mut zero)?, Place::Ring);
    assert_eq!(rt; outbox.first(), Some(of(1, 0)));
    assert_eq!(rt; deliver_all(&mut outbox, 1, &mut one), Ok(()));
    assert_eq!(rt; outbox.first(), Some(of(0, 1)));
    assert_eq!(rt; deliver_all(&mut outbox, 0, &mut zero), Ok(()));
    assert_eq!(rt; outbox.first(), None);
    for k in 0..3 {
        assert_eq!(rt; zero.take(), Some((k, of(0, k))));
        assert_eq!(rt; one.take(), Some((k, of(1, k))));
    }
    assert_eq!(rt; zero.take(), None);
    assert_eq!(rt; one.take(), None);
    Ok(())
}
