//! The limits of a shape.
ghost use Rattle.std.specs.Prelude.{◌≡◌};
ghost use Rattle.board.specs.ShapeLimits as bounds;

use crate::shape::{RingShape, Shape};
use limits::{PIPES, RINGS, WORKERS, is_capacity, is_cells, is_posts};

/// Whether a ring may have this shape.
fn is_ring(ring: &RingShape) -> bool
    ensures { result ≡ bounds.is_ring ring.now }
{
    is_cells(ring.cells) && is_posts(ring.posts)
}

/// Whether each ring may have its shape.
fn are_rings(rings: &[RingShape]) -> bool
    ensures { result ≡ bounds.are_rings rings.now }
{
    for ring in rings {
        if !is_ring(ring) {
            return false;
        }
    }
    true
}

/// Whether each capacity is one that a pipe may have.
fn are_capacities(pipes: &[u32]) -> bool
    ensures { result ≡ bounds.are_capacities pipes.now }
{
    for capacity in pipes {
        if !is_capacity(*capacity) {
            return false;
        }
    }
    true
}

/// Whether a board may have this shape.
pub(crate) fn is_shape(shape: &Shape) -> bool
    ensures { result ≡ bounds.is_shape shape.now }
{
    0 < shape.rings.len()
        && shape.rings.len() <= RINGS
        && are_rings(shape.rings.as_slice())
        && shape.pipes.len() <= PIPES
        && are_capacities(shape.pipes.as_slice())
        && 0 < shape.workers
        && shape.workers <= WORKERS
}
