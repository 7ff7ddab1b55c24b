//! The pipes of a board that an operation is answered from, and the ends that it names.
ghost use Rattle.std.specs.Prelude.{◌≡◌, ℕ, ◌<◌, ◌||◌, true};
ghost use Rattle.history.specs.{end_of, is_at, uses_at};
ghost use Rattle.answers.specs.NamedEnds.{pipe_with, IsAmong, are_of_one, JoinsPipes, AreNamed, IsSide};

use entry::{Op, by_opcode};
use level::End;

/// The pipes of a board that an operation is answered from.
#[derive(Clone, Copy)]
pub enum NamedPipes {
    /// None of them.
    Nothing,
    /// One alone.
    One(u64),
    /// Two: a SPLICE moves bytes from the first into the second.
    Both { source: u64, target: u64 },
}

macro_rules! named {
    ((pipe splice $fd_in:ident $fd_out:ident $len:ident) ($op:ident, $pipes:ident)) => { both_of($op, $fd_in, $fd_out, $pipes) };
    ((pipe $kind:ident $fd:ident $($field:ident)*) ($op:ident, $pipes:ident)) => { one_of($op, $fd, $pipes) };
    ((plain $kind:ident) $args:tt) => { NamedPipes::Nothing };
    ((timer $kind:ident $ticks:ident) $args:tt) => { NamedPipes::Nothing };
    ((cancel $kind:ident $($field:ident)*) $args:tt) => { NamedPipes::Nothing };
}

/// The pipes that the operation is answered from, among this many: those whose ends it names by its fds.
pub fn pipes_of(op: Op, pipes: u64) -> NamedPipes
    ensures { AreNamed op pipes result }
{
    by_opcode!(op => named!(op, pipes))
}

/// The pipe of an operation that names the end `fd` alone.
/// A READ of a write end has its pipe too, though its answer doesn't need it: which pipe an operation is answered from is read off its
/// fd, and not off its row.
fn one_of(op: Op, fd: i32, pipes: u64) -> NamedPipes
    requires names { (p : ℕ) → p < pipes → uses_at op p ≡ is_at (end_of fd) p }
    ensures { AreNamed op pipes result }
{
    let _ = op;
    match pipe_among(fd, pipes) {
        Some(pipe) => NamedPipes::One(pipe),
        None => NamedPipes::Nothing,
    }
}

/// The pipes of an operation that takes bytes out at the end `fd_in` and puts them in at `fd_out`.
fn both_of(op: Op, fd_in: i32, fd_out: i32, pipes: u64) -> NamedPipes
    requires names { (p : ℕ) → p < pipes → uses_at op p ≡ (is_at (end_of fd_in) p || is_at (end_of fd_out) p) }
    requires joins { (s : ℕ) (t : ℕ) → is_at (end_of fd_in) s ≡ true → is_at (end_of fd_out) t ≡ true → JoinsPipes op s t }
    ensures { AreNamed op pipes result }
{
    let Some(source) = pipe_among(fd_in, pipes) else {
        return one_of(op, fd_out, pipes);
    };
    let Some(target) = pipe_among(fd_out, pipes) else {
        return NamedPipes::One(source);
    };
    if source == target {
        NamedPipes::One(source)
    } else {
        NamedPipes::Both { source, target }
    }
}

/// The pipe of the end `fd`, where it is one of this many.
fn pipe_among(fd: i32, pipes: u64) -> Option<u64>
    ensures { IsAmong (end_of fd) pipes result }
{
    match pipe_at(fd) {
        Some(pipe) if pipe < pipes => Some(pipe),
        _ => None,
    }
}

/// The pipe of the end `fd`, whether a board has it or not.
fn pipe_at(fd: i32) -> Option<u64>
    ensures { result ≡ pipe_with (end_of fd) }
{
    if fd < 0 {
        return None;
    }
    Some(u64::from(fd.unsigned_abs()) / 2)
}

/// Both are ends of one pipe.
pub(crate) fn are_of_one(fd: i32, other: i32) -> bool
    ensures { result ≡ are_of_one (end_of fd) (end_of other) }
{
    match (pipe_at(fd), pipe_at(other)) {
        (Some(pipe), Some(other)) => pipe == other,
        _ => false,
    }
}

/// The side of the end `fd`.
pub(crate) fn side_of(fd: i32) -> End
    requires { (p : ℕ) × (is_at (end_of fd) p ≡ true) }
    ensures { IsSide result (end_of fd) }
{
    if fd % 2 == 0 { End::Read } else { End::Write }
}
