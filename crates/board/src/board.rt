//! The board and its calls.
ghost use Rattle.std.specs.Prelude.{◌≡◌, ◌≢◌, ℕ, ◌+◌, ◌-◌, ◌<◌, ◌≤◌, ◌⊎◌, cond, true, false, [], ◌∷◌, length, slice_index, IfOk, IfErr};
ghost use Rattle.std.specs.declared.result.Result.TheVariants.{Err};
ghost use Rattle.history.specs.declared.req.Req.{Req};
ghost use Rattle.history.specs.declared.event.Event.TheVariants.{Submit, Begin, Reap};
ghost use Rattle.history.specs.History.{same, phase, submits};
ghost use Rattle.steps.specs.declared.line.Line.TheVariants.{Did};
ghost use Rattle.steps.specs.{cells_in, total, IsFree, IsReaped, freed, Looks, Extends, Begins};
ghost use Rattle.steps.specs.declared.view.Role.{Role};
ghost use Rattle.work.specs.{Facts, IsOf, AreCellCounts, seen_of, FoundNotReady, Took};
ghost use Rattle.board.specs.declared.error.BoardError.TheVariants.{BadShape};
ghost use Rattle.board.specs.{Goes, Finds, HasLooked, KeepsFreed, Stepped, FoundHeld, IsUnheld, MayStart, next_of, IsCompletion, HasOnce, counts, is_shape, widest, IsNew, AreSubmitters, AreWorkers, IsCutting, RefusesReap, KnowsRows};

use crate::alarm::Alarm;
use crate::bounds::is_shape;
use crate::completion::Completion;
use crate::error::{BoardError, ReapError};
use crate::phase::{Phase, has_failed, told};
use crate::poller::Poller;
use crate::shape::{RingShape, Shape};
use crate::submitter::Submitter;
use entry::{Cqe, Sqe};
use gates::Row;
use history::Req;
use std::alloc::{AllocError, Global};
use std::marker::Model;
use steps::{BoardTable, Submission, TableSeat, Words, table};
use work::{Busy, Grid, Lists, Pass, Worker};

/// Rings, pipes and workers over one shared table. Its passes may be used by several threads at once.
#[derive(Drop)]
pub struct Board {
    pub(crate) table: BoardTable,
    pub(crate) grid: Grid,
    pub(crate) pipes: usize,
    pub(crate) workers: u32,
    pub(crate) width: u32,
}

impl Model for Board {
    ghost use Rattle.std.specs.Prelude.{◌≡◌, length};
    ghost use Rattle.work.specs.Board.{Facts, IsBoard};
    ghost use Rattle.board.specs.ShapeLimits.{widest};

    ghost Value = { Facts };

    ghost view = { λ b. record { table = b.table.shared.table_id; layout = record { cells = b.grid; caps = b.table.shared.key.caps.value.items }; workers = b.workers } };

    ghost invariant = { λ b. IsBoard (record { table = b.table.shared.table_id; layout = record { cells = b.grid; caps = b.table.shared.key.caps.value.items }; workers = b.workers }) × (b.table.shared.key.cells.value.items ≡ b.grid) × (length b.table.shared.key.caps.value.items ≡ b.pipes) × (b.width ≡ widest b.grid) };
}

/// The numbers of cells.
fn cells_of(alloc: Global, rings: &[RingShape]) -> Result<Vec<u64>, AllocError>
    ensures { IfOk result (λ v. v.items ≡ counts rings.now) }
{
    let mut cells = Vec::new(alloc);
    for ring in rings {
        cells.push(u64::from(ring.cells))?;
    }
    Ok(cells)
}

/// How many cells the widest ring has.
fn widest_of(rings: &[RingShape]) -> u32
    ensures { result ≡ widest (counts rings.now) }
{
    let mut most = 0u32;
    for ring in rings {
        most = most.max(ring.cells);
    }
    most
}

/// The submitters of all rings, whose seats leave the poller's.
fn cut_submitters(
    alloc: Global,
    words: &Words,
    seat: &mut TableSeat,
    grid: &Grid,
) -> Result<Vec<Submitter>, AllocError>
    requires seat { IsCutting seat.old.me.0.layout words.now.table_id 0 0 seat.old }
    requires cells { AreCellCounts grid.now × (grid.now ≡ seat.old.me.0.layout.cells) × (length grid.now ≤ 16) }
    requires words { 0 < words.now.table_id.words }
    ensures seat { IfOk result (λ v. IsCutting seat.old.me.0.layout words.now.table_id (length grid.now) 0 seat.new) }
    ensures count { IfOk result (λ v. length v.items ≡ length grid.now) }
    ensures submitters { IfOk result (λ v. (b : Facts) → b.table ≡ words.now.table_id → b.layout ≡ seat.old.me.0.layout → AreSubmitters b 0 v.items) }
{
    let mut submitters = Vec::new(alloc);
    for ring in 0..grid.rings() as u16 {
        let cells = grid.cells_in(usize::from(ring)) as usize;
        let ages = Vec::from_elem(alloc, 0u32, cells)?;
        let facts = Vec::from_elem(alloc, 0u64, cells)?;
        let cut = table::next_submitter(words, seat);
        submitters.push(Submitter::new(cut, ring, ages, facts))?;
    }
    Ok(submitters)
}

/// This many workers, whose seats leave the poller's, with room for what each of them takes in a run: a cancel can take all other
/// requests that its ring has cells for, and from a pipe a run takes along as many as there are cells.
fn cut_workers(
    alloc: Global,
    words: &Words,
    seat: &mut TableSeat,
    grid: &Grid,
    count: u32,
    widest: u32,
) -> Result<Vec<Worker>, AllocError>
    requires seat { (n : ℕ) × IsCutting seat.old.me.0.layout words.now.table_id n 0 seat.old × (n ≤ 16) }
    requires grid { grid.now ≡ seat.old.me.0.layout.cells }
    requires count { count ≤ 64 }
    requires widest { (ring : ℕ) → cells_in seat.old.me.0.layout.cells ring ≤ widest }
    requires words { 0 < words.now.table_id.words }
    ensures seat { IfOk result (λ v. (n : ℕ) → IsCutting seat.old.me.0.layout words.now.table_id n 0 seat.old → IsCutting seat.old.me.0.layout words.now.table_id n count seat.new) }
    ensures count { IfOk result (λ v. length v.items ≡ count) }
    ensures workers { IfOk result (λ v. (b : Facts) → b.table ≡ words.now.table_id → b.layout ≡ seat.old.me.0.layout → AreWorkers b v.items) }
{
    let others = widest.saturating_sub(1) as usize;
    let mut workers = Vec::new(alloc);
    for _ in 0..count {
        let lists = Lists::new(alloc, others, grid.total())?;
        let cut = table::next_worker(words, seat);
        workers.push(Worker::new(cut, lists))?;
    }
    Ok(workers)
}

/// An empty row for each ring.
fn rows_of(alloc: Global, grid: &Grid) -> Result<Vec<Row>, BoardError>
    requires { AreCellCounts grid.now × (length grid.now ≤ 16) }
    ensures rows { IfOk result (λ v. KnowsRows grid.now [] v.items) }
    ensures memory { result ≡ Err BadShape → ⊥ }
{
    let mut rows = Vec::new(alloc);
    for ring in 0..grid.rings() {
        let Ok(row) = Row::new(alloc, grid.cells_in(ring) as u32) else {
            return Err(BoardError::Memory);
        };
        rows.push(row)?;
    }
    Ok(rows)
}

impl Board {
    /// A board of this shape, with the poller's pass, a submitter for each ring, in order, and its workers.
    pub fn new(
        alloc: Global,
        shape: &Shape,
    ) -> Result<(Board, Poller, Vec<Submitter>, Vec<Worker>), BoardError>
        ensures new { IfOk result (λ t. IsNew shape.now t.0 t.1 t.2.items t.3.items) }
        ensures bad_shape { result ≡ Err BadShape → is_shape shape.now ≡ false }
        ensures refused { is_shape shape.now ≡ false → result ≡ Err BadShape }
    {
        if !is_shape(shape) {
            return Err(BoardError::BadShape);
        }
        let cells = cells_of(alloc, shape.rings.as_slice())?;
        let grid = Grid::new(alloc, cells.as_slice())?;
        let (table, mut seat) = table::set_up(alloc, &cells, &shape.pipes, grid.total())?;
        let submitters = cut_submitters(alloc, &table.shared, &mut seat, &grid)?;
        let widest = widest_of(shape.rings.as_slice());
        let workers = cut_workers(
            alloc,
            &table.shared,
            &mut seat,
            &grid,
            shape.workers,
            widest,
        )?;
        let rows = rows_of(alloc, &grid)?;
        let alarms = Vec::from_elem(alloc, Alarm::Linked, grid.total())?;
        let board = Board {
            table,
            grid,
            pipes: shape.pipes.len(),
            workers: shape.workers,
            width: widest,
        };
        Ok((board, Poller::new(seat, rows, alarms), submitters, workers))
    }

    /// How many cells its widest ring has: no run answers more requests.
    pub fn widest(&self) -> u32
        ensures widest { result ≡ widest self.now.layout.cells }
        ensures few { result ≤ 1024 }
    {
        self.width
    }

    /// How many cells its rings have together.
    pub fn cells(&self) -> usize
        ensures cells { result ≡ total self.now.layout.cells }
        ensures few { result ≤ 16384 }
    {
        self.grid.total()
    }

    /// Where the request stands.
    pub fn look<P: Pass>(&self, pass: &mut P, req: Req) -> Phase
        requires { IsOf self.now (P.knows pass.old) }
        ensures looks { Goes self.now (P.knows pass.old) [] (P.knows pass.new) }
        ensures finds { Finds self.now req result (P.knows pass.old) (P.knows pass.new) }
        ensures took { (P.knows pass.new).took ≡ (P.knows pass.old).took }
        ensures woken { (P.knows pass.new).woken ≡ (P.knows pass.old).woken }
        ensures alone { KeepsFreed (P.knows pass.old) (P.knows pass.new) }
    {
        let Some(cell) = self.grid.locate(req) else {
            return Phase::Unborn;
        };
        let word = pass.load(&self.table.shared, cell.index);
        told(word, cell.generation)
    }

    /// Both passes look, and the second has then seen all that the first has.
    pub fn meet<P: Pass, Q: Pass>(&self, pass: &mut P, other: &mut Q)
        requires first { IsOf self.now (P.knows pass.old) }
        requires second { IsOf self.now (Q.knows other.old) }
        ensures first { Goes self.now (P.knows pass.old) [] (P.knows pass.new) }
        ensures second { Goes self.now (Q.knows other.old) [] (Q.knows other.new) }
        ensures told { Begins (Q.knows other.new).view.seen (P.knows pass.new).view.seen }
        ensures looked { HasLooked (P.knows pass.old) (P.knows pass.new) × HasLooked (Q.knows other.old) (Q.knows other.new) }
        ensures took { ((P.knows pass.new).took ≡ (P.knows pass.old).took) × ((Q.knows other.new).took ≡ (Q.knows other.old).took) }
        ensures woken { ((P.knows pass.new).woken ≡ (P.knows pass.old).woken) × ((Q.knows other.new).woken ≡ (Q.knows other.old).woken) }
        ensures alone { KeepsFreed (P.knows pass.old) (P.knows pass.new) × KeepsFreed (Q.knows other.old) (Q.knows other.new) }
    {
        let words = &self.table.shared;
        pass.load(words, 0);
        let messenger = pass.tell(words);
        other.hear(words, messenger);
        other.load(words, 0);
    }

    /// Gives a request that is Ready to the worker.
    pub fn begin<'a>(&'a self, worker: Worker, req: Req) -> Result<Busy<'a>, Worker>
        requires { IsOf self.now worker }
        ensures steps { IfOk result (λ b. Took worker.view b.pass.view 1) }
        ensures begun { IfOk result (λ b. (b.req ≡ req) × IsOf self.now b.pass × Extends worker.view (Did (Begin req)) (Role.Busy req) b.pass.view) }
        ensures refused { IfErr result (λ w. IsOf self.now w × ((w.view ≡ worker.view) ⊎ Looks worker.view w.view) × ((length self.now.layout.cells ≤ req.ring) ⊎ FoundNotReady self.now.layout.cells req worker.view w.view)) }
        ensures took { IfOk result (λ b. b.took ≡ worker.took) × IfErr result (λ w. w.took ≡ worker.took) }
        ensures woken { IfOk result (λ b. b.woken ≡ worker.woken) × IfErr result (λ w. w.woken ≡ worker.woken) }
    {
        worker.begin(&self.table.shared, &self.grid, self.pipes, req)
    }

    /// Takes the request's completion.
    #[inline(always)]
    pub fn reap(&self, submitter: &mut Submitter, req: Req) -> Result<Completion, ReapError>
        requires { IsOf self.now submitter.old }
        ensures reaped { IfOk result (λ x. Goes self.now submitter.old (Reap req ∷ []) submitter.new) }
        ensures completion { IfOk result (λ x. IsCompletion (seen_of submitter.new) req x × IsReaped (phase (seen_of submitter.new) req)) }
        ensures once { IfOk result (λ x. HasOnce (seen_of submitter.new) req) }
        ensures steps { IfOk result (λ x. Took submitter.old.view submitter.new.view 3) }
        ensures refused { IfErr result (λ e. Goes self.now submitter.old [] submitter.new) }
        ensures reason { (ring : ℕ) → submitter.old.view.role ≡ Role.Submitter ring → IfErr result (λ e. RefusesReap self.now.layout.cells req ring (submits (seen_of submitter.old) ring) submitter.old submitter.new e) }
    {
        if req.ring != submitter.ring() {
            return Err(ReapError::Foreign);
        }
        if submitter.next_request().k <= req.k {
            return Err(ReapError::NotYet);
        }
        let Some(cell) = self.grid.locate(req) else {
            unreachable!()
        };
        let words = &self.table.shared;
        let word = submitter.look_at(words, cell.index);
        match told(word, cell.generation) {
            Phase::Done(res) => {
                let returned = submitter.reap(words, cell, word, has_failed(word));
                let cqe = Cqe {
                    user_data: returned.0,
                    res,
                };
                Ok(Completion {
                    req,
                    cqe,
                    buffer: returned.1,
                })
            }
            Phase::Gone => Err(ReapError::Gone),
            _ => Err(ReapError::NotYet),
        }
    }
}
