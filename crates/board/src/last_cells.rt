//! What is left of a table that was ended: the claim word and the slot of each cell.
ghost use Rattle.std.specs.Prelude.{◌≡◌, ℕ, ◌+◌, ◌*◌, ◌<◌, ◌≤◌, true, false, [], slice_index_or, vec_capacity, IfOk};
ghost use Rattle.std.specs.Mem.Slots.{slots_items, slots_filled, slots_len, IsFull};
ghost use Rattle.steps.specs.Cells.{slots_of, words_of};
ghost use Rattle.board.specs.LastCells.{AreTaken, IsEmptied};

use atomic_table::Closed;
use std::alloc::{AllocError, Global};
use steps::Thing;
use steps::layout::{PIPES, claim_word, slot, slots_of};

/// The claim word and the slot of each cell.
#[derive(Drop)]
pub(crate) struct LastCells {
    pub claims: Vec<u64>,
    pub slots: Vec<Option<Thing>>,
}

impl LastCells {
    /// Room for this many cells.
    pub fn with_room(alloc: Global, cells: usize) -> Result<LastCells, AllocError>
        ensures claims { IfOk result (λ r. (r.claims.items ≡ []) × (cells ≤ vec_capacity r.claims)) }
        ensures slots { IfOk result (λ r. (r.slots.items ≡ []) × (cells ≤ vec_capacity r.slots)) }
    {
        let claims = Vec::with_capacity(alloc, cells)?;
        let slots = Vec::with_capacity(alloc, cells)?;
        Ok(LastCells { claims, slots })
    }
}

/// Lets the values of these slots go.
fn drop_slots(closed: &mut Closed<Option<Thing>, Global>, from: usize, to: usize)
    requires there { (from ≤ to) × (to ≤ slots_len closed.old.slots) }
    requires full { (k : ℕ) → from ≤ k → k < to → slice_index_or (slots_filled closed.old.slots) k false ≡ true }
    ensures words { closed.new.words ≡ closed.old.words }
    ensures same { (slots_items closed.new.slots ≡ slots_items closed.old.slots) × (slots_len closed.new.slots ≡ slots_len closed.old.slots) }
    ensures emptied { IsEmptied (slots_filled closed.old.slots) (slots_filled closed.new.slots) from to }
{
    for p in from..to {
        drop(closed.take(p));
    }
}

/// Takes the claim word and the slot of each cell.
fn take_cells(closed: &mut Closed<Option<Thing>, Global>, last_cells: &mut LastCells, cells: usize)
    requires words { IsFull closed.old.words × (words_of cells ≤ slots_len closed.old.words) }
    requires slots { slots_of cells ≤ slots_len closed.old.slots }
    requires full { (k : ℕ) → slots_of 0 ≤ k → k < slots_of cells → slice_index_or (slots_filled closed.old.slots) k false ≡ true }
    requires few { cells ≤ 16384 }
    requires claims { (last_cells.old.claims.items ≡ []) × (cells ≤ vec_capacity last_cells.old.claims) }
    requires room { (last_cells.old.slots.items ≡ []) × (cells ≤ vec_capacity last_cells.old.slots) }
    ensures words { closed.new.words ≡ closed.old.words }
    ensures same { (slots_items closed.new.slots ≡ slots_items closed.old.slots) × (slots_len closed.new.slots ≡ slots_len closed.old.slots) }
    ensures emptied { IsEmptied (slots_filled closed.old.slots) (slots_filled closed.new.slots) (slots_of 0) (slots_of cells) }
    ensures taken { AreTaken (slots_items closed.old.words) (slots_items closed.old.slots) cells last_cells.new.claims.items last_cells.new.slots.items }
{
    for x in 0..cells {
        let word = closed.word(claim_word(x));
        let thing = closed.take(slot(x));
        let Ok(()) = last_cells.claims.push(word) else {
            unreachable!()
        };
        let Ok(()) = last_cells.slots.push(thing) else {
            unreachable!()
        };
    }
}

/// What is left of the table.
pub(crate) fn last_cells_of(
    mut closed: Closed<Option<Thing>, Global>,
    mut last_cells: LastCells,
    cells: usize,
) -> LastCells
    requires full { IsFull closed.words × IsFull closed.slots }
    requires counts { (words_of cells ≤ slots_len closed.words) × (slots_of cells ≤ slots_len closed.slots) }
    requires few { cells ≤ 16384 }
    requires claims { (last_cells.claims.items ≡ []) × (cells ≤ vec_capacity last_cells.claims) }
    requires room { (last_cells.slots.items ≡ []) × (cells ≤ vec_capacity last_cells.slots) }
    ensures { AreTaken (slots_items closed.words) (slots_items closed.slots) cells result.claims.items result.slots.items }
{
    let count = closed.slot_count();
    drop_slots(&mut closed, 0, PIPES);
    take_cells(&mut closed, &mut last_cells, cells);
    drop_slots(&mut closed, slots_of(cells), count);
    closed.free();
    last_cells
}
