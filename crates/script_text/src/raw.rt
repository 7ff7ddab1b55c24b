//! Entries that a script gives as bytes.
ghost use Rattle.std.specs.Prelude.{◌≡◌, IfOk, Option};
ghost use Rattle.entry.specs.Entry.{Entry};
ghost use Rattle.script_text.specs.{IsRawEntry, len_of, raw_buffer, raw_faults, KeepsFault, with_faults};

use crate::fault::Fault;
use crate::faults::Faults;
use entry::{Op, Sqe, by_opcode};
use limits::BUFFER;
use std::alloc::{AllocError, Global};
use text::bytes_of;

/// The entry that 128 lower-case hexadecimal digits write. None where they are others.
pub fn raw_entry(alloc: Global, digits: &[u8]) -> Result<Option<Sqe>, AllocError>
    ensures entry { IfOk result (λ e. IsRawEntry digits.now e) }
    ensures only { IfOk result (λ e. (other : Option Entry) → IsRawEntry digits.now other → e ≡ other) }
{
    let Some(bytes) = bytes_of(alloc, digits)? else {
        return Ok(None);
    };
    if bytes.len() != 64 {
        return Ok(None);
    }
    let mut entry = [0u8; 64];
    entry.copy_from_slice(&bytes);
    Ok(Some(Sqe::of_bytes(&entry)))
}

macro_rules! len_of_buffer {
    ([no_buffer] ()) => { 0 };
    ([reads $len:ident] ()) => { $len };
    ([writes $len:ident] ()) => { $len };
    ([any_buffer] ()) => { 0 };
}

/// How many bytes a READ or WRITE asks for, and 0 of another entry.
fn len_of(op: Op) -> u32
    ensures { result ≡ len_of op }
{
    by_opcode!(buffer of op => len_of_buffer!())
}

/// Notes the faults of the digits of a `raw` line.
pub fn note_raw(faults: &mut Faults, given: Option<Sqe>)
    ensures stays { KeepsFault faults.old.least faults.new.least }
    ensures is_first { faults.new.least ≡ with_faults faults.old.least (raw_faults given) }
{
    match given {
        None => faults.note(Fault::BadBytes),
        Some(sqe) => faults.note_if(len_of(sqe.op()) > BUFFER, Fault::OutOfRange),
    }
}

/// The buffer of a `raw` line: as many zero bytes as the entry's `len` says, and none where they are too many.
pub fn raw_buffer(alloc: Global, sqe: Sqe) -> Result<Vec<u8>, AllocError>
    ensures { IfOk result (λ buffer. buffer.items ≡ raw_buffer sqe) }
{
    let len = len_of(sqe.op());
    if len > BUFFER {
        Ok(Vec::new(alloc))
    } else {
        vec![in alloc; 0u8; len as usize]
    }
}
