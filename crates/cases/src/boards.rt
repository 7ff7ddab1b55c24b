//! Boards, each with the calls of the lines after its own.
ghost use Rattle.std.specs.Prelude.{◌≡◌, All, IfOk, IfErr, IfSome};
ghost use Rattle.work.specs.Board.{IsOf};
ghost use Rattle.cases.specs.Cast.{AreIn, IsCast, IsTroop};

use crate::calls::{completed, park, printed};
use crate::cast::{Away, Cast, Troop};
use crate::judge::{Judge, call_of};
use crate::printed::{Printed, Slip, said, shown};
use crate::words::Words;
use board::{Board, BoardError, Pass, Report, RingShape, Shape, Unfinished, Worker};
use std::alloc::{AllocError, Global};
use std::io;

/// Adds what a part of a board's line says: `2 rings of 4`, `1 ring of 4 posts 8`, `1 pipe of 16` or `3 workers`.
fn add_part(shape: &mut Shape, words: &mut Words<'_>) -> Result<(), Slip> {
    let count = words.number::<u32>();
    match words.word() {
        "ring" | "rings" => {
            words.expect("of");
            let cells = words.number();
            let posts = if words.option("posts") {
                Some(words.number())
            } else {
                None
            };
            words.end()?;
            let rings = vec![in words.alloc; RingShape { cells, posts }; count as usize]?;
            shape.rings.extend_from_slice(&rings)?;
        }
        "pipe" | "pipes" => {
            words.expect("of");
            let capacity = words.number();
            words.end()?;
            let pipes = vec![in words.alloc; capacity; count as usize]?;
            shape.pipes.extend_from_slice(&pipes)?;
        }
        "worker" | "workers" => shape.workers = count,
        _ => return Err(Slip::BadLine),
    }
    words.end()
}

/// The shape that the parts of a board's line say.
fn shape_of(alloc: Global, parts: &str) -> Result<Shape, Slip> {
    let mut shape = Shape {
        rings: Vec::new(alloc),
        pipes: Vec::new(alloc),
        workers: 0,
    };
    for part in parts.split(", ") {
        add_part(&mut shape, &mut Words::of(alloc, part))?;
    }
    Ok(shape)
}

/// Places with these workers, and as many for workers with a request.
fn places_of<'a>(
    alloc: Global,
    board: &Board,
    mut workers: Vec<Worker>,
) -> Result<(Vec<Option<Worker>>, Vec<Option<Away<'a>>>), AllocError>
    requires { All (λ p. IsOf board.now p) workers.items }
    ensures idle { IfOk result (λ t. AreIn (λ p. IsOf board.now p) t.0.items) }
    ensures busy { IfOk result (λ t. AreIn (λ a. IsOf board.now a.busy.pass) t.1.items) }
{
    let mut idle = Vec::new(alloc);
    let mut busy = Vec::new(alloc);
    while let Some(worker) = workers.pop() {
        idle.push(Some(worker))?;
        busy.push(None)?;
    }
    Ok((idle, busy))
}

/// Adds the pass, where there is one.
fn put_back<P: Pass + Drop>(
    board: &Board,
    passes: &mut Vec<P>,
    pass: Option<P>,
) -> Result<(), AllocError>
    requires passes { All (λ p. IsOf board.now (P.knows p)) passes.old.items }
    requires pass { IfSome pass (λ p. IsOf board.now (P.knows p)) }
    ensures { All (λ p. IsOf board.now (P.knows p)) passes.new.items }
{
    match pass {
        Some(pass) => passes.push(pass).map_err(AllocError::from),
        None => Ok(()),
    }
}

/// The workers at these places.
fn workers_at(
    alloc: Global,
    board: &Board,
    mut idle: Vec<Option<Worker>>,
) -> Result<Vec<Worker>, AllocError>
    requires { AreIn (λ p. IsOf board.now p) idle.items }
    ensures { IfOk result (λ v. All (λ p. IsOf board.now p) v.items) }
{
    let mut workers = Vec::new(alloc);
    while let Some(slot) = idle.pop() {
        put_back(board, &mut workers, slot)?;
    }
    Ok(workers)
}

/// All workers put their requests back.
fn park_all(board: &Board, cast: &mut Cast<'_>)
    requires { IsCast board.now cast.old }
    ensures { IsCast board.now cast.new }
{
    for number in 0..cast.busy.len() {
        park(board, cast, number);
    }
}

/// Makes the calls of these lines.
fn play_lines<'a, R: AllocGlobal + Print>(
    judge: &mut Judge<'_, R>,
    board: &'a Board,
    cast: &mut Cast<'a>,
    lines: &str,
) -> io::Result<()>
    requires { IsCast board.now cast.old }
    ensures { IsCast board.now cast.new }
{
    for line in lines.split('\n') {
        if let Some(call) = call_of(line) {
            let printed = printed(board, cast, &mut Words::of(judge.alloc(), call));
            judge.hear("", line, printed)?;
        }
    }
    Ok(())
}

/// Makes the calls of these lines with the passes of a troop.
fn play<R: AllocGlobal + Print>(
    judge: &mut Judge<'_, R>,
    board: &Board,
    troop: Troop,
    lines: &str,
) -> io::Result<Troop>
    requires { IsTroop board.now troop }
    ensures { IfOk result (λ t. IsTroop board.now t) }
{
    let Troop {
        poller,
        submitters,
        workers,
    } = troop;
    let (idle, busy) = places_of(judge.alloc(), board, workers)?;
    let mut cast = Cast {
        poller,
        submitters,
        idle,
        busy,
    };
    play_lines(judge, board, &mut cast, lines)?;
    park_all(board, &mut cast);
    let Cast {
        poller,
        submitters,
        idle,
        busy: _,
    } = cast;
    Ok(Troop {
        poller,
        submitters,
        workers: workers_at(judge.alloc(), board, idle)?,
    })
}

/// Takes the last pass away, where it is meant.
fn last_if<P: Pass>(board: &Board, passes: &mut Vec<P>, is_meant: bool) -> Option<P>
    requires { All (λ p. IsOf board.now (P.knows p)) passes.old.items }
    ensures taken { IfSome result (λ p. IsOf board.now (P.knows p)) }
    ensures left { All (λ p. IsOf board.now (P.knows p)) passes.new.items }
{
    if is_meant { passes.pop() } else { None }
}

/// What a board reported.
fn printed_of_report(alloc: Global, report: &Report) -> Printed {
    let count = report.lines().len();
    let mut printed = format!(in alloc; "{count} left")?;
    for (completion, is_cut) in report.lines() {
        printed.push_str("/")?;
        printed.push_str(completed(alloc, completion)?.as_str())?;
        printed.push_str(if *is_cut { " cut" } else { "" })?;
    }
    Ok(printed)
}

/// Ends the board with the passes of the troop, of which the words may leave one out, or turn the submitters round. Tells how it
/// went, and gives back what was not ended.
fn end(
    alloc: Global,
    board: Board,
    troop: Troop,
    words: &str,
) -> Result<(Printed, Option<(Board, Troop)>), AllocError>
    requires { IsTroop board troop }
    ensures { IfOk result (λ t. IfSome t.1 (λ s. IsTroop s.0 s.1)) }
{
    let Troop {
        poller,
        mut submitters,
        mut workers,
    } = troop;
    if words == " turned" {
        submitters.reverse();
    }
    let submitter = last_if(&board, &mut submitters, words == " without submitter");
    let worker = last_if(&board, &mut workers, words == " without worker");
    match board.finish(alloc, poller, submitters, workers) {
        Ok(report) => Ok((printed_of_report(alloc, &report), None)),
        Err(unfinished) => {
            let Unfinished {
                error,
                board,
                poller,
                mut submitters,
                mut workers,
            } = unfinished;
            put_back(&board, &mut submitters, submitter)?;
            put_back(&board, &mut workers, worker)?;
            let troop = Troop {
                poller,
                submitters,
                workers,
            };
            Ok((shown(alloc, &error), Some((board, troop))))
        }
    }
}

/// The first of some lines, and the others.
fn first_line(lines: &str) -> (&str, &str) {
    lines.split_once('\n').unwrap_or((lines, ""))
}

/// Continues with a board after its first `finish`: each part begins with what stands after that word.
fn play_on<R: AllocGlobal + Print>(
    judge: &mut Judge<'_, R>,
    board: Board,
    troop: Troop,
    parts: &[&str],
) -> io::Result<()>
    requires { IsTroop board troop }
{
    let (mut board, mut troop) = (board, troop);
    for part in parts {
        let (line, lines) = first_line(part);
        let (printed, still) = end(judge.alloc(), board, troop, call_of(line).unwrap_or(""))?;
        judge.hear("finish", line, printed)?;
        let Some((left, passes)) = still else {
            return Ok(());
        };
        board = left;
        troop = play(judge, &board, passes, lines)?;
    }
    Ok(())
}

/// A new board with its passes.
fn board_of(alloc: Global, shape: Shape) -> Result<(Board, Troop), BoardError>
    ensures { IfOk result (λ t. IsTroop t.0 t.1) }
{
    let (board, poller, submitters, workers) = Board::new(alloc, &shape)?;
    let troop = Troop {
        poller,
        submitters,
        workers,
    };
    Ok((board, troop))
}

/// Plays a new board, whose line is the first, up to its first `finish` and from there on.
pub fn play_board<R: AllocGlobal + Print>(judge: &mut Judge<'_, R>, text: &str) -> io::Result<()> {
    let alloc = judge.alloc();
    let parts: Vec<&str> = text.split("\nfinish").collect(alloc)?;
    let [first, others @ ..] = parts.as_slice() else {
        return Ok(());
    };
    let (line, lines) = first_line(first);
    let shape = match shape_of(alloc, call_of(line).unwrap_or("")) {
        Ok(shape) => shape,
        Err(slip) => return judge.hear("board ", line, Err(slip)),
    };
    match board_of(alloc, shape) {
        Ok((board, troop)) => {
            judge.hear("board ", line, said(alloc, "made"))?;
            let troop = play(judge, &board, troop, lines)?;
            play_on(judge, board, troop, others)
        }
        Err(error) => judge.hear("board ", line, shown(alloc, &error)),
    }
}
