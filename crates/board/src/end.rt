//! The end of a board.
ghost use Rattle.std.specs.Prelude.{◌≡◌, ◌≢◌, ◌+◌, ◌<◌, ◌≤◌, ◌⊎◌, ◌↔◌, [], ◌∷◌, ◌++◌, length, vec_capacity, IfOk, IfErr};
ghost use Rattle.std.specs.Mem.Slots.{slots_items, slots_len, IsFull};
ghost use Rattle.steps.specs.declared.view.Role.{Role};
ghost use Rattle.steps.specs.declared.view.Role.TheVariants.{Spent};
ghost use Rattle.steps.specs.declared.view.View.{View};
ghost use Rattle.steps.specs.Cells.{total};
ghost use Rattle.work.specs.Board.{Facts, IsOf};
ghost use Rattle.board.specs.declared.error.FinishError.TheVariants.{Missing};
ghost use Rattle.board.specs.{hearing_all, Closing, AreOf, IsReport};

use crate::board::Board;
use crate::completion::{Completion, Report};
use crate::error::FinishError;
use crate::last_cells::{LastCells, last_cells_of};
use crate::poller::Poller;
use crate::report::add_rings;
use crate::submitter::Submitter;
use atomic_table::Closed;
use std::alloc::{AllocError, Global};
use std::marker::Model;
use steps::{TableSeat, Thing, Words, table};
use work::{Grid, Worker};

/// The board and its passes, which come back where it isn't ended.
#[derive(Drop)]
pub struct Unfinished {
    pub error: FinishError,
    pub board: Board,
    pub poller: Poller,
    pub submitters: Vec<Submitter>,
    pub workers: Vec<Worker>,
}

/// The room that a report needs.
#[derive(Drop)]
struct Room {
    last_cells: LastCells,
    lines: Vec<(Completion, bool)>,
}

/// The room of a report, made ahead of the end. Contracts see for how many cells it is enough.
#[derive(Drop)]
pub struct ReportRoom {
    room: Room,
    cells: usize,
}

impl Model for ReportRoom {
    ghost use Rattle.std.specs.Prelude.{◌≡◌, ◌≤◌, ℕ, [], vec_capacity};

    ghost Value = { ℕ };

    ghost view = { λ r. r.cells };

    ghost invariant = { λ r. ((r.room.last_cells.claims.items ≡ []) × (r.cells ≤ vec_capacity r.room.last_cells.claims)) × ((r.room.last_cells.slots.items ≡ []) × (r.cells ≤ vec_capacity r.room.last_cells.slots)) × ((r.room.lines.items ≡ []) × (r.cells ≤ vec_capacity r.room.lines)) };
}

impl Room {
    /// Room for this many cells.
    fn new(alloc: Global, cells: usize) -> Result<Room, AllocError>
        ensures claims { IfOk result (λ r. (r.last_cells.claims.items ≡ []) × (cells ≤ vec_capacity r.last_cells.claims)) }
        ensures slots { IfOk result (λ r. (r.last_cells.slots.items ≡ []) × (cells ≤ vec_capacity r.last_cells.slots)) }
        ensures lines { IfOk result (λ r. (r.lines.items ≡ []) × (cells ≤ vec_capacity r.lines)) }
    {
        let last_cells = LastCells::with_room(alloc, cells)?;
        let lines = Vec::with_capacity(alloc, cells)?;
        Ok(Room { last_cells, lines })
    }
}

/// The seat hears all submitters.
fn hear_submitters(words: &Words, seat: &mut TableSeat, mut submitters: Vec<Submitter>)
    requires fits { (seat.old.table_id ≡ words.now.table_id) × (0 < words.now.table_id.words) }
    requires live { seat.old.me.0.role ≢ Spent }
    requires ours { (b : Facts) × (b.table ≡ words.now.table_id) × AreOf b submitters.items }
    ensures table { seat.new.table_id ≡ seat.old.table_id }
    ensures heard { seat.new.me ≡ (hearing_all seat.old.me.0 submitters.items, seat.old.me.1) }
{
    while let Some(submitter) = submitters.pop() {
        table::hear(words, seat, submitter.into_seat());
    }
}

/// The seat hears all workers.
fn hear_workers(words: &Words, seat: &mut TableSeat, mut workers: Vec<Worker>)
    requires fits { (seat.old.table_id ≡ words.now.table_id) × (0 < words.now.table_id.words) }
    requires live { seat.old.me.0.role ≢ Spent }
    requires ours { (b : Facts) × (b.table ≡ words.now.table_id) × AreOf b workers.items }
    ensures table { seat.new.table_id ≡ seat.old.table_id }
    ensures heard { seat.new.me ≡ (hearing_all seat.old.me.0 workers.items, seat.old.me.1) }
{
    while let Some(worker) = workers.pop() {
        table::hear(words, seat, worker.into_seat());
    }
}

impl Board {
    /// Ends the board. The report has each request that wasn't reaped; those without a reply are cut off with -125
    /// (ECANCELED), as no request runs while all passes are here.
    pub fn finish(
        self,
        alloc: Global,
        poller: Poller,
        submitters: Vec<Submitter>,
        workers: Vec<Worker>,
    ) -> Result<Report, Unfinished>
        requires poller { IsOf self poller }
        requires submitters { AreOf self submitters.items }
        requires workers { AreOf self workers.items }
        ensures report { IfOk result (λ r. IsReport self (poller ∷ (submitters.items ++ workers.items)) r) }
        ensures complete { IfOk result (λ r. (length submitters.items ≡ length self.layout.cells) × (length workers.items ≡ self.workers)) }
        ensures missing { IfErr result (λ u. (u.error ≡ Missing) ↔ ((length submitters.items ≢ length self.layout.cells) ⊎ (length workers.items ≢ self.workers))) }
        ensures board { IfErr result (λ u. (u.board ≡ self) × (u.poller ≡ poller)) }
        ensures passes { IfErr result (λ u. (u.submitters ≡ submitters) × (u.workers ≡ workers)) }
    {
        let error = if submitters.len() != self.grid.rings()
            || workers.len() != self.workers as usize
        {
            FinishError::Missing
        } else {
            match Room::new(alloc, self.grid.total()) {
                Ok(room) => return Ok(self.end(poller, submitters, workers, room)),
                Err(_) => FinishError::Memory,
            }
        };
        Err(Unfinished {
            error,
            board: self,
            poller,
            submitters,
            workers,
        })
    }

    /// The room that the report of this board needs. It is made ahead, so that `finish_in` can't fail.
    pub fn make_room(&self, alloc: Global) -> Result<ReportRoom, AllocError>
        ensures { IfOk result (λ r. r ≡ total self.now.layout.cells) }
    {
        let cells = self.grid.total();
        let room = Room::new(alloc, cells)?;
        Ok(ReportRoom { room, cells })
    }

    /// Ends the board as `finish` does, in room that was made ahead. All passes are there.
    pub fn finish_in(
        self,
        poller: Poller,
        submitters: Vec<Submitter>,
        workers: Vec<Worker>,
        room: ReportRoom,
    ) -> Report
        requires poller { IsOf self poller }
        requires submitters { AreOf self submitters.items × (length submitters.items ≡ length self.layout.cells) }
        requires workers { AreOf self workers.items × (length workers.items ≡ self.workers) }
        requires room { total self.layout.cells ≤ room }
        ensures report { IsReport self (poller ∷ (submitters.items ++ workers.items)) result }
        ensures role { poller.view.role ≡ Role.Poller (length self.layout.cells) }
    {
        self.end(poller, submitters, workers, room.room)
    }

    /// The report, for which there is room. All passes are there. It is read off the table, so their order plays no part.
    fn end(
        self,
        poller: Poller,
        submitters: Vec<Submitter>,
        workers: Vec<Worker>,
        room: Room,
    ) -> Report
        requires poller { IsOf self poller }
        requires submitters { AreOf self submitters.items × (length submitters.items ≡ length self.layout.cells) }
        requires workers { AreOf self workers.items × (length workers.items ≡ self.workers) }
        requires claims { (room.last_cells.claims.items ≡ []) × (total self.layout.cells ≤ vec_capacity room.last_cells.claims) }
        requires slots { (room.last_cells.slots.items ≡ []) × (total self.layout.cells ≤ vec_capacity room.last_cells.slots) }
        requires lines { (room.lines.items ≡ []) × (total self.layout.cells ≤ vec_capacity room.lines) }
        ensures { IsReport self (poller ∷ (submitters.items ++ workers.items)) result }
    {
        let (grid, closed) = self.close(poller, submitters, workers);
        let Room {
            last_cells,
            mut lines,
        } = room;
        let mut last_cells = last_cells_of(closed, last_cells, grid.total());
        add_rings(&grid, &mut last_cells, &mut lines);
        Report::new(lines)
    }

    /// Takes in all passes, and ends the table.
    fn close(
        self,
        poller: Poller,
        submitters: Vec<Submitter>,
        workers: Vec<Worker>,
    ) -> (Grid, Closed<Option<Thing>, Global>)
        requires poller { IsOf self poller }
        requires submitters { AreOf self submitters.items × (length submitters.items ≡ length self.layout.cells) }
        requires workers { AreOf self workers.items × (length workers.items ≡ self.workers) }
        ensures grid { result.0 ≡ self.layout.cells }
        ensures full { IsFull result.1.words × IsFull result.1.slots }
        ensures counts { slots_len result.1.words ≡ self.table.words }
        ensures closing { (v : View) × Closing self poller submitters.items workers.items v (slots_items result.1.words) (slots_items result.1.slots) }
    {
        let Board {
            table,
            grid,
            pipes: _,
            workers: _,
            width: _,
        } = self;
        let mut seat = poller.into_seat();
        hear_submitters(&table.shared, &mut seat, submitters);
        hear_workers(&table.shared, &mut seat, workers);
        (grid, table::finish(table, seat))
    }
}
