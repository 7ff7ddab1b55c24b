//! Boards, from their start to their end.
ghost use Rattle.std.specs.Prelude.{◌≡◌, All, IfOk, IfSome, length};
ghost use Rattle.work.specs.Board.{IsOf};

use crate::lines::{Call, Handed, Lines, Shown};
use board::{Board, BoardError, Poller, Report, RingShape, Shape, Submitter, Worker};
use entry::Sqe;
use prep::{nop, read};
use std::alloc::Global;
use std::marker::Model;

/// Entries with their buffers.
pub(crate) type Batch = Vec<(Sqe, Vec<u8>)>;

/// Adds an entry with a buffer of this many bytes.
pub(crate) fn add(alloc: Global, batch: &mut Batch, sqe: Sqe, bytes: usize) {
    if let Ok(buffer) = Vec::from_elem(alloc, b'.', bytes) {
        let _ = batch.push((sqe, buffer));
    }
}

/// This many rings of this many cells, a pipe of 16 bytes, and this many workers.
pub(crate) fn shape_of(alloc: Global, rings: usize, cells: u32, workers: u32) -> Option<Shape>
    ensures { IfSome result (λ s. length s.rings.items ≡ rings) }
{
    Some(Shape {
        rings: Vec::from_elem(alloc, RingShape { cells, posts: None }, rings).ok()?,
        pipes: Vec::from_elem(alloc, 16u32, 1).ok()?,
        workers,
    })
}

/// A board with its passes.
pub(crate) fn new_board(
    alloc: Global,
    shape: &Shape,
) -> Result<(Board, Poller, Vec<Submitter>, Vec<Worker>), BoardError>
    ensures poller { IfOk result (λ t. IsOf t.0 t.1) }
    ensures submitters { IfOk result (λ t. All (λ p. IsOf t.0 p) t.2.items) }
    ensures workers { IfOk result (λ t. All (λ p. IsOf t.0 p) t.3.items) }
{
    Ok(Board::new(alloc, shape)?)
}

/// A board is made of this shape.
impl Call<()> for Shape {
    fn make(&mut self, _rt: &(), alloc: Global, gave: &mut Shown) -> bool {
        let made = gave.got(Board::new(alloc, self));
        if let Some(parts) = &made {
            gave.count(" submitters ", parts.2.len() as u64);
            gave.count(" workers ", parts.3.len() as u64);
        }
        made.is_some()
    }
}

/// A board, and all its passes.
#[derive(Drop)]
struct Whole {
    board: Board,
    poller: Poller,
    submitters: Vec<Submitter>,
    workers: Vec<Worker>,
}

impl Model for Whole {
    ghost use Rattle.std.specs.Prelude.{All};
    ghost use Rattle.work.specs.Board.{Facts, IsOf};

    ghost Value = { Facts };

    ghost view = { λ w. w.board };

    ghost invariant = { λ w. IsOf w.board w.poller × All (λ p. IsOf w.board p) w.submitters.items × All (λ p. IsOf w.board p) w.workers.items };
}

impl Handed<()> for Whole {
    fn hand(self, _rt: &(), alloc: Global, gave: &mut Shown) -> Option<Whole> {
        match self
            .board
            .finish(alloc, self.poller, self.submitters, self.workers)
        {
            Ok(report) => {
                show_report(&report, gave);
                None
            }
            Err(it) => {
                gave.refused(&it.error);
                Some(Whole {
                    board: it.board,
                    poller: it.poller,
                    submitters: it.submitters,
                    workers: it.workers,
                })
            }
        }
    }

    fn show_parts(&self, shown: &mut Shown) {
        shown.count(" submitters ", self.submitters.len() as u64);
        shown.count(" workers ", self.workers.len() as u64);
    }
}

/// Tells the lines of a report.
pub(crate) fn show_report(report: &Report, gave: &mut Shown) {
    gave.text(" reports");
    for (completion, is_cut) in report.lines() {
        gave.req(completion.req);
        gave.reply(completion.cqe.res);
        gave.text(if *is_cut { " cut" } else { "" });
    }
}

/// Submits a batch.
pub(crate) fn submit(board: &Board, submitter: &mut Submitter, batch: Batch)
    requires { IsOf board.now submitter.old }
    ensures { IsOf board.now submitter.new }
{
    let _ring = submitter.ring();
    let _ = board.submit_batch(submitter, batch);
}

/// Submits a batch by the submitter of ring 0.
fn submit_by_first(board: &Board, submitters: &mut Vec<Submitter>, batch: Batch)
    requires { All (λ p. IsOf board.now p) submitters.old.items }
    ensures { All (λ p. IsOf board.now p) submitters.new.items }
{
    if let Some(submitter) = submitters.get_mut(0) {
        submit(board, submitter, batch);
    }
}

/// A new board, on which a NOP and a READ have no reply.
fn whole_of(alloc: Global, shape: &Shape) -> Option<Whole> {
    let Ok((board, poller, mut submitters, workers)) = new_board(alloc, shape) else {
        return None;
    };
    let mut batch = Vec::new(alloc);
    add(alloc, &mut batch, nop(), 0);
    add(alloc, &mut batch, read(0, 4, 0), 4);
    submit_by_first(&board, &mut submitters, batch);
    Some(Whole {
        board,
        poller,
        submitters,
        workers,
    })
}

/// A board is made, and another is ended.
pub(crate) fn try_boards(lines: &mut Lines) {
    if let Some(mut shape) = shape_of(lines.alloc, 2, 4, 2) {
        let mut whole = whole_of(lines.alloc, &shape);
        lines.try_call(&(), "Board::new", &mut shape);
        lines.try_call(&(), "Board::finish", &mut whole);
        drop(whole);
    }
}
