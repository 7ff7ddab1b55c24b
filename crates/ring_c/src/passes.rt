//! The passes of a board leave its poller's desk, and come back.
ghost use Rattle.std.specs.Prelude.{◌≡◌, IfOk, IfErr};
ghost use Rattle.ring_c.specs.{DeskFacts, AreOfTwo, GivesPass, IsMade, IsShapeOf, IsUnmade, TakesIn};
ghost use Rattle.ring_c.specs.declared.code.Code.TheVariants.{Memory, BadShape};

use crate::code::Code;
use crate::desk::Desk;
use crate::inside::{Inside, put};
use board::{Board, BoardError, RingShape, Shape};
use std::alloc::{AllocError, Global};
use std::mem::replace;

/// The shape with these rings, pipes and workers.
fn shape_of(alloc: Global, rings: &[u32], pipes: &[u32], workers: u32) -> Result<Shape, Code>
    ensures shape { IfOk result (λ s. IsShapeOf rings.now pipes.now workers s) }
    ensures refused { IfErr result (λ c. c ≡ Memory) }
{
    let Ok(mut shapes) = Vec::with_capacity(alloc, rings.len()) else {
        return Err(Code::Memory);
    };
    for cells in rings {
        shapes.push_reserved(RingShape {
            cells: *cells,
            posts: None,
        });
    }
    let mut capacities = Vec::new(alloc);
    if capacities.extend_from_slice(pipes).is_err() {
        return Err(Code::Memory);
    }
    Ok(Shape {
        rings: shapes,
        pipes: capacities,
        workers,
    })
}

/// The desk of a new board.
fn desk_of(alloc: Global, rings: &[u32], pipes: &[u32], workers: u32) -> Result<Desk, Code>
    ensures made { IfOk result (λ d. IsMade rings.now pipes.now workers d) }
    ensures refused { IfErr result (λ c. IsUnmade rings.now pipes.now workers c) }
{
    let shape = match shape_of(alloc, rings, pipes, workers) {
        Ok(shape) => shape,
        Err(code) => return Err(code),
    };
    match Board::new(alloc, &shape) {
        Ok((board, poller, submitters, workers)) => {
            Desk::new(alloc, board, poller, submitters, workers)
        }
        Err(BoardError::BadShape) => Err(Code::BadShape),
        Err(BoardError::Memory) => Err(Code::Memory),
    }
}

/// A box with nothing in it yet.
fn empty_box(alloc: Global) -> Result<Box<Inside>, Code>
    ensures { IfErr result (λ c. c ≡ Memory) }
{
    match Box::new(alloc, Inside::Away) {
        Ok(made) => Ok(made),
        Err(failed) => {
            let AllocError = AllocError::from(failed);
            Err(Code::Memory)
        }
    }
}

/// The poller of a new board, in a box.
pub(crate) fn poller_of(
    alloc: Global,
    rings: &[u32],
    pipes: &[u32],
    workers: u32,
) -> Result<Box<Inside>, Code>
    ensures made { IfOk result (λ m. (x : DeskFacts) × (m.value ≡ Inside.Desk x) × IsMade rings.now pipes.now workers x) }
    ensures refused { IfErr result (λ c. IsUnmade rings.now pipes.now workers c) }
{
    let mut made = match empty_box(alloc) {
        Ok(made) => made,
        Err(code) => return Err(code),
    };
    match desk_of(alloc, rings, pipes, workers) {
        Ok(desk) => {
            put(&mut made, Inside::Desk(desk));
            Ok(made)
        }
        Err(code) => Err(code),
    }
}

/// A worker of the poller's board, or else a client, in a box.
pub(crate) fn pass_of(
    inside: &mut Inside,
    alloc: Global,
    is_worker: bool,
) -> Result<Box<Inside>, Code>
    ensures given { IfOk result (λ m. GivesPass is_worker inside.old inside.new m.value) }
    ensures refused { IfErr result (λ _. inside.new ≡ inside.old) }
{
    let mut made = match empty_box(alloc) {
        Ok(made) => made,
        Err(code) => return Err(code),
    };
    let Inside::Desk(desk) = inside else {
        return Err(Code::WrongKind);
    };
    if is_worker {
        return match desk.give_worker() {
            Ok(hand) => {
                put(&mut made, Inside::Hand(hand));
                Ok(made)
            }
            Err(code) => Err(code),
        };
    }
    match desk.give_client(alloc) {
        Ok(client) => {
            put(&mut made, Inside::Client(client));
            Ok(made)
        }
        Err(code) => Err(code),
    }
}

/// Takes a client or a worker back to the poller of its board. Nothing is left of it.
pub(crate) fn take_back(inside: &mut Inside, pass: &mut Inside) -> Result<(), Code>
    requires { AreOfTwo inside.old pass.old }
    ensures taken { IfOk result (λ _. TakesIn inside.old inside.new pass.old) }
    ensures refused { IfErr result (λ _. (inside.new ≡ inside.old) × (pass.new ≡ pass.old)) }
{
    let Inside::Desk(desk) = inside else {
        return Err(Code::WrongKind);
    };
    match replace(pass, Inside::Away) {
        Inside::Client(client) => match desk.take_client(client) {
            Ok(()) => Ok(()),
            Err(client) => {
                put(pass, Inside::Client(client));
                Err(Code::Memory)
            }
        },
        Inside::Hand(hand) => match desk.take_worker(hand) {
            Ok(()) => Ok(()),
            Err(hand) => {
                put(pass, Inside::Hand(hand));
                Err(Code::Memory)
            }
        },
        other => {
            put(pass, other);
            Err(Code::WrongKind)
        }
    }
}
