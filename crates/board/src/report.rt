//! The report of the requests that were not reaped, from what is left of a table.
ghost use Rattle.std.specs.Prelude.{◌≡◌, ℕ, ◌+◌, ◌<◌, ◌≤◌, ◌↔◌, List, Some, None, IsTrue, length, slice_set, vec_capacity};
ghost use mathlib.Core.Option.{some};
ghost use lib.ListN.{get_elem?};
ghost use Rattle.claim.specs.declared.word.TheConstants.{GENERATIONS};
ghost use Rattle.history.specs.Legal.{Setup};
ghost use Rattle.steps.specs.declared.line.Line.{Line};
ghost use Rattle.steps.specs.declared.slot.Submission.{Submission};
ghost use Rattle.steps.specs.declared.slot.Thing.TheVariants.{Full};
ghost use Rattle.steps.specs.{Ages, Shown};
ghost use Rattle.board.specs.Calls.{IsWord, IsPresent};
ghost use Rattle.board.specs.LastCells.{Reports, IsReplyOf};

use crate::completion::Completion;
use crate::last_cells::LastCells;
use crate::phase::{Phase, told};
use claim::unpack;
use entry::Cqe;
use history::Req;
use steps::{Submission, Thing};
use work::Grid;

/// The reply to a request that the end cut off (ECANCELED).
const CUT: i32 = -125;

/// Whether the request was submitted and not reaped.
fn is_present(phase: Phase) -> bool
    ensures { IsTrue result ↔ IsPresent phase }
{
    match phase {
        Phase::Unborn => false,
        Phase::Gone => false,
        _ => true,
    }
}

/// The line of a request that stands so, with its submission.
fn line_of(req: Req, phase: Phase, submission: Submission) -> (Completion, bool)
    ensures req { result.0.req ≡ req }
    ensures user_data { result.0.cqe.user_data ≡ submission.sqe.user_data }
    ensures buffer { result.0.buffer ≡ submission.buffer }
    ensures reply { IsReplyOf phase result.0.cqe.res result.1 }
{
    let (res, cut) = match phase {
        Phase::Done(res) => (res, false),
        _ => (CUT, true),
    };
    let cqe = Cqe {
        user_data: submission.sqe.user_data(),
        res,
    };
    let completion = Completion {
        req,
        cqe,
        buffer: submission.buffer,
    };
    (completion, cut)
}

/// Takes the submission out of a cell's slot, which has one.
fn take_submission(slots: &mut Vec<Option<Thing>>, cell: usize) -> Submission
    requires { (p : Submission) × (get_elem? slots.old.items cell ≡ some (Some (Full p))) }
    ensures submission { get_elem? slots.old.items cell ≡ some (Some (Full result)) }
    ensures slots { slots.new.items ≡ slice_set slots.old.items cell None }
{
    let Some(thing) = slots[cell].take() else {
        unreachable!()
    };
    let Thing::Full(submission) = thing else {
        unreachable!()
    };
    submission
}

/// The generation that a claim word tells.
fn age_of(word: u64) -> u64
    requires { IsWord word }
    ensures ages { (K : List ℕ) (j : List Line) (x : ℕ) → Shown K j x word → Ages K j x result }
    ensures small { result < GENERATIONS }
{
    let Some(claim) = unpack(word) else {
        unreachable!()
    };
    u64::from(claim.generation)
}

/// Adds the request's line, where it was submitted and not reaped.
fn add_line(grid: &Grid, last_cells: &mut LastCells, lines: &mut Vec<(Completion, bool)>, req: Req)
    requires there { req.ring < length grid.now }
    requires so_far { (s : Setup) × (j : List Line) × Reports s grid.now j last_cells.old.claims.items last_cells.old.slots.items lines.old.items (vec_capacity lines.old) req }
    ensures { (s : Setup) (j : List Line) → Reports s grid.now j last_cells.old.claims.items last_cells.old.slots.items lines.old.items (vec_capacity lines.old) req → Reports s grid.now j last_cells.new.claims.items last_cells.new.slots.items lines.new.items (vec_capacity lines.new) (record { ring = req.ring; k = req.k + 1 }) }
{
    let Some(cell) = grid.locate(req) else {
        unreachable!()
    };
    let phase = told(last_cells.claims[cell.index], cell.generation);
    if !is_present(phase) {
        return;
    }
    let submission = take_submission(&mut last_cells.slots, cell.index);
    let Ok(()) = lines.push(line_of(req, phase, submission)) else {
        unreachable!()
    };
}

/// Adds the lines of the ring. Those that were not reaped are of the generation of its first cell, or a neighbour.
fn add_ring(grid: &Grid, last_cells: &mut LastCells, lines: &mut Vec<(Completion, bool)>, ring: u16)
    requires there { ring < length grid.now }
    requires so_far { (s : Setup) × (j : List Line) × Reports s grid.now j last_cells.old.claims.items last_cells.old.slots.items lines.old.items (vec_capacity lines.old) (record { ring = ring; k = 0 }) }
    ensures { (s : Setup) (j : List Line) → Reports s grid.now j last_cells.old.claims.items last_cells.old.slots.items lines.old.items (vec_capacity lines.old) (record { ring = ring; k = 0 }) → Reports s grid.now j last_cells.new.claims.items last_cells.new.slots.items lines.new.items (vec_capacity lines.new) (record { ring = ring + 1; k = 0 }) }
{
    let Some(cell) = grid.locate(Req { ring, k: 0 }) else {
        unreachable!()
    };
    let age = age_of(last_cells.claims[cell.index]);
    let cells = grid.cells_in(usize::from(ring));
    for k in age.saturating_sub(2) * cells..(age + 1) * cells {
        add_line(grid, last_cells, lines, Req { ring, k });
    }
}

/// Adds the lines of all rings.
pub(crate) fn add_rings(
    grid: &Grid,
    last_cells: &mut LastCells,
    lines: &mut Vec<(Completion, bool)>,
)
    requires few { length grid.now ≤ 16 }
    requires so_far { (s : Setup) × (j : List Line) × Reports s grid.now j last_cells.old.claims.items last_cells.old.slots.items lines.old.items (vec_capacity lines.old) (record { ring = 0; k = 0 }) }
    ensures { (s : Setup) (j : List Line) → Reports s grid.now j last_cells.old.claims.items last_cells.old.slots.items lines.old.items (vec_capacity lines.old) (record { ring = 0; k = 0 }) → Reports s grid.now j last_cells.new.claims.items last_cells.new.slots.items lines.new.items (vec_capacity lines.new) (record { ring = length grid.now; k = 0 }) }
{
    for ring in 0..grid.rings() as u16 {
        add_ring(grid, last_cells, lines, ring);
    }
}
