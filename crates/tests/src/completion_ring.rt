//! A ring of two places, with more posts than it holds.
use compring::{CompletionRing, Place, PostError};
use history::Req;
use std::test::Fail;

fn nth(k: u64) -> Req {
    Req { ring: 0, k }
}

#[test]
fn five_posts_come_out_in_order(rt: HostRuntime) -> Result<(), Fail> {
    let mut ring = CompletionRing::new(rt.alloc(), 2)?;
    assert_eq!(rt; ring.post(nth(10)), Ok(Place::Ring));
    assert_eq!(rt; ring.post(nth(11)), Ok(Place::Ring));
    assert!(rt; !ring.overflowed());
    assert_eq!(rt; ring.post(nth(12)), Ok(Place::Overflow));
    assert_eq!(rt; ring.post(nth(13)), Ok(Place::Overflow));
    assert_eq!(rt; ring.post(nth(14)), Ok(Place::Overflow));
    assert!(rt; ring.overflowed());
    assert_eq!(rt; ring.take(), Some((0, nth(10))));
    assert!(rt; ring.overflowed());
    assert_eq!(rt; ring.take(), Some((1, nth(11))));
    assert!(rt; ring.overflowed());
    assert_eq!(rt; ring.take(), Some((2, nth(12))));
    assert!(rt; !ring.overflowed());
    assert_eq!(rt; ring.take(), Some((3, nth(13))));
    assert!(rt; !ring.overflowed());
    assert_eq!(rt; ring.take(), Some((4, nth(14))));
    assert!(rt; !ring.overflowed());
    assert_eq!(rt; ring.take(), None);
    Ok(())
}

#[test]
fn each_ring_has_its_own(rt: HostRuntime) -> Result<(), Fail> {
    assert_eq!(rt; CompletionRing::new(rt.alloc(), 4)?.owner(), 0);
    assert_eq!(rt; CompletionRing::for_ring(rt.alloc(), 4, 15)?.owner(), 15);
    Ok(())
}

#[test]
fn sizes_are_one_to_2048(rt: HostRuntime) -> Result<(), Fail> {
    assert!(rt; matches!(CompletionRing::new(rt.alloc(), 0), Err(PostError::BadSize)));
    assert!(rt;
        matches!(
            CompletionRing::new(rt.alloc(), 2049),
            Err(PostError::BadSize)
        )
    );
    let ring = CompletionRing::new(rt.alloc(), 2048)?;
    assert!(rt; !ring.overflowed());
    Ok(())
}
