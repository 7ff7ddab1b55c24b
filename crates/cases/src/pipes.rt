//! Pipes.
use crate::printed::{Digits, Printed, Slip, debugged, said};
use crate::words::Words;
use level::End;
use pipe::{Pipe, PipeError};
use std::alloc::Global;
use std::mem;

/// The last pipe, and the one that was the last before it, which bytes are spliced to.
#[derive(Drop)]
pub struct Pipes {
    pub last: Option<Pipe>,
    pub other: Option<Pipe>,
}

/// What is printed of a new pipe, which is kept for the lines after it, of the two pipes, or of a call of the last one.
pub fn printed(pipes: &mut Pipes, kind: &str, words: &mut Words<'_>) -> Printed {
    let alloc = words.alloc;
    match kind {
        "pipe" => {
            let capacity = words.number();
            words.end()?;
            match Pipe::new(alloc, capacity) {
                Ok(made) => {
                    mem::swap(&mut pipes.last, &mut pipes.other);
                    pipes.last = Some(made);
                    said(alloc, "made")
                }
                Err(error) => refused(alloc, error),
            }
        }
        "swap" => {
            words.end()?;
            mem::swap(&mut pipes.last, &mut pipes.other);
            said(alloc, "swapped")
        }
        "memory" => refused(alloc, PipeError::Memory),
        "splice" => {
            let len = words.number();
            words.end()?;
            match (&mut pipes.last, &mut pipes.other) {
                (Some(pipe), Some(other)) => debugged(alloc, &pipe.splice_to(other, len)),
                _ => Err(Slip::BadLine),
            }
        }
        _ => match &mut pipes.last {
            Some(pipe) => printed_of_call(pipe, kind, words),
            None => Err(Slip::BadLine),
        },
    }
}

/// The texts of an error.
fn refused(alloc: Global, error: PipeError) -> Printed {
    Ok(format!(in alloc; "{error:?}: {error}")?)
}

/// What a call of the pipe answers.
fn printed_of_call(pipe: &mut Pipe, kind: &str, words: &mut Words<'_>) -> Printed {
    let alloc = words.alloc;
    match kind {
        "close" => {
            let end = end_of(words);
            words.end()?;
            debugged(alloc, &pipe.close_end(end))
        }
        "shut" => debugged(alloc, &pipe.is_closed(end_of(words))),
        "poll" => debugged(alloc, &pipe.poll_mask(end_of(words), words.number())),
        _ => printed_of_bytes(pipe, kind, words),
    }
}

/// What a write or a read answers. Behind a read's answer stand the bytes of its buffer, which the line gives as they are
/// before.
fn printed_of_bytes(pipe: &mut Pipe, kind: &str, words: &mut Words<'_>) -> Printed {
    let alloc = words.alloc;
    let mut bytes = words.bytes()?;
    words.end()?;
    if kind == "write" {
        return debugged(alloc, &pipe.write_from(bytes.as_slice()));
    }
    let answer = pipe.read_into(bytes.as_mut_slice());
    let buffer = Digits(&bytes);
    Ok(format!(in alloc; "{answer:?} buffer {buffer}")?)
}

/// An end by its name.
fn end_of(words: &mut Words<'_>) -> End {
    match words.word() {
        "read" => End::Read,
        "write" => End::Write,
        _ => words.bad(End::Read),
    }
}
