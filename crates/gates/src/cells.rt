//! The cells of a row, in the order of their requests.
ghost use Rattle.std.specs.Prelude.{◌≡◌, ◌≢◌, ◌⊎◌, ℕ, ◌+◌, ◌^◌, ◌<◌, ◌≤◌, length, map, slice_get, slice_set, IfSome, Some, false, true};
ghost use Rattle.std.specs.VecDeque.{deque_capacity};
ghost use Rattle.gates.specs.declared.cell.Cell.{Cell};
ghost use Rattle.gates.specs.{slot_of, joins_of, passes, is_pending, is_draining, LinkedAt, Linked, IsFirst, held_at, nearest_in, IsTurn};

use crate::cell::{Behind, Cell};
use std::collections::VecDeque;

/// The cell at a place.
pub fn cell_at(cells: &VecDeque<Cell>, j: usize) -> &Cell
    requires { j < length cells.now.items }
    ensures { slice_get cells.now.items j ≡ Some result.now }
{
    &cells[j]
}

/// Keeps a reply of the request at a place.
pub fn set_reply(cells: &mut VecDeque<Cell>, j: usize, fails: bool)
    requires { j < length cells.old.items }
    ensures items { (c : Cell) → slice_get cells.old.items j ≡ Some c → cells.new.items ≡ slice_set cells.old.items j (record c { reply = Some fails }) }
    ensures capacity { deque_capacity cells.new ≡ deque_capacity cells.old }
{
    cells[j].reply = Some(fails);
}

/// Keeps what the entries before a place make of its request.
fn set_behind(cells: &mut VecDeque<Cell>, j: usize, behind: Behind)
    requires { j < length cells.old.items }
    ensures items { (c : Cell) → slice_get cells.old.items j ≡ Some c → cells.new.items ≡ slice_set cells.old.items j (record c { behind = behind }) }
    ensures capacity { deque_capacity cells.new ≡ deque_capacity cells.old }
{
    cells[j].behind = behind;
}

/// The request after the one at a place is in its chain.
fn joins_next(cells: &VecDeque<Cell>, j: usize) -> bool
    requires { j < length cells.now.items }
    ensures { (c : Cell) → slice_get cells.now.items j ≡ Some c → result ≡ joins_of (slot_of c) }
{
    cell_at(cells, j).joins()
}

/// Hands on to the later members of the chain what has become of the request at a place, as far as it changes anything for them.
/// A member is severed once, and set free by its chain once: so over all calls no cell is written more than twice.
pub fn spread(cells: &mut VecDeque<Cell>, lost: u64, from: usize)
    requires inside { from < length cells.old.items }
    requires few { lost + length cells.old.items < 2 ^ 64 }
    requires linked { (j : ℕ) → j ≢ from → LinkedAt lost cells.old.items j }
    requires alone { (c : Cell) → slice_get cells.old.items from ≡ Some c → joins_of (slot_of c) ≡ false → LinkedAt lost cells.old.items from }
    ensures linked { Linked lost cells.new.items }
    ensures slots { map slot_of cells.new.items ≡ map slot_of cells.old.items }
    ensures kept { (j : ℕ) → j ≤ from → slice_get cells.new.items j ≡ slice_get cells.old.items j }
    ensures capacity { deque_capacity cells.new ≡ deque_capacity cells.old }
{
    if !joins_next(cells, from) {
        return;
    }
    let mut j = from;
    while j + 1 < cells.len() {
        let behind = cell_at(cells, j).next(lost + j as u64);
        if cell_at(cells, j + 1).behind == behind {
            return;
        }
        j += 1;
        set_behind(cells, j, behind);
    }
}

/// The place of the first request from `from` on that has not replied.
pub fn first_pending(cells: &VecDeque<Cell>, from: usize) -> usize
    requires within { from ≤ length cells.now.items }
    requires before { (j : ℕ) → j < from → passes is_pending (map slot_of cells.now.items) j ≡ false }
    ensures { IsFirst is_pending (map slot_of cells.now.items) result }
{
    let mut j = from;
    while j < cells.len() && !cell_at(cells, j).is_pending() {
        j += 1;
    }
    j
}

/// The place of the first drain from `from` on that has not replied.
pub fn first_draining(cells: &VecDeque<Cell>, from: usize) -> usize
    requires within { from ≤ length cells.now.items }
    requires before { (j : ℕ) → j < from → passes is_draining (map slot_of cells.now.items) j ≡ false }
    ensures { IsFirst is_draining (map slot_of cells.now.items) result }
{
    let mut j = from;
    while j < cells.len() && !cell_at(cells, j).is_draining() {
        j += 1;
    }
    j
}

/// The place of the first drain that has not replied, once another request was added; before that it is `drain`. `drains` says
/// whether the new one drains.
pub fn drain_after(cells: &VecDeque<Cell>, drain: usize, drains: bool) -> usize
    requires { length cells.now.items + 1 < 2 ^ 64 }
    ensures kept { (drain < length cells.now.items) ⊎ (drains ≡ true) → result ≡ drain }
    ensures moved { drain ≡ length cells.now.items → drains ≡ false → result ≡ drain + 1 }
{
    if drain == cells.len() && !drains {
        drain + 1
    } else {
        drain
    }
}

/// The place of the nearest earlier member of its chain, of the request at `j`, that has not replied. It walks back over those
/// that have, and only where one has not.
pub fn last_pending(cells: &VecDeque<Cell>, j: usize) -> Option<usize>
    requires { j < length cells.now.items }
    ensures nearest { result ≡ nearest_in cells.now.items j }
    ensures before { IfSome result (λ p. p < j) }
{
    let mut m = j;
    while m > 0 && cell_at(cells, m).behind.held {
        m -= 1;
        if cell_at(cells, m).is_pending() {
            return Some(m);
        }
    }
    None
}

/// The place after which the members of a chain wait for an earlier one, where those at `low` don't and those at `high` do:
/// the first member that has not replied. It halves what is left of the chain with each cell that it looks at.
/// No pointer to it is kept: the chain's first cells may be gone while later members wait.
pub fn first_held(cells: &VecDeque<Cell>, mut low: usize, mut high: usize) -> usize
    requires { high < length cells.now.items }
    ensures { low < high → held_at cells.now.items low ≡ false → held_at cells.now.items high ≡ true → IsTurn cells.now.items low high result }
{
    while high.saturating_sub(low) > 1 {
        let middle = low + (high - low) / 2;
        if cell_at(cells, middle).behind.held {
            high = middle;
        } else {
            low = middle;
        }
    }
    low
}
