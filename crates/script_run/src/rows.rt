//! The table of a run, from its completions.
ghost use Rattle.std.specs.Prelude.{◌≡◌, length, IfOk, IfErr, IfSome, OnSome};
ghost use Rattle.script_run.specs.{IsUnstuck, AreRows, IsFound, IsRow, IsRowOf};
ghost use Rattle.script.specs.Rows.{data_count};

use crate::fault::RunFault;
use board::Completion;
use entry::{Op, by_opcode};
use history::Req;
use script::{Named, Script, Table};
use std::alloc::{AllocError, Global};

/// The table: for each entry the reply of its request, and after a READ the bytes that it got.
pub(crate) fn table_of(
    alloc: Global,
    script: &Script,
    requests: &[Option<Req>],
    taken: &[Completion],
    left: &[(Completion, bool)],
) -> Result<Table, RunFault>
    ensures lines { IfOk result (λ table. length table.lines.items ≡ length script.now.entries.items) }
    ensures rows { IfOk result (λ table. AreRows script.now requests.now taken.now left.now table.lines.items) }
    ensures unstuck { IfErr result IsUnstuck }
{
    let mut lines = Vec::new(alloc);
    for place in 0..script.entries.len() {
        let Some(row) = row_at(alloc, script, requests, taken, left, place)? else {
            return Err(RunFault::Shared);
        };
        lines.push(row)?;
    }
    Ok(Table { lines })
}

/// The row of the entry at a place, where its completion is there.
fn row_at(
    alloc: Global,
    script: &Script,
    requests: &[Option<Req>],
    taken: &[Completion],
    left: &[(Completion, bool)],
    place: usize,
) -> Result<Option<(i32, Vec<u8>)>, AllocError>
    ensures { IfOk result (λ found. IfSome found (IsRow script.now requests.now taken.now left.now place)) }
{
    if place >= script.entries.len() || place >= requests.len() {
        return Ok(None);
    }
    let entry = &script.entries[place];
    let Some(req) = requests[place] else {
        return Ok(None);
    };
    let Some(completion) = completion_of(req, taken, left) else {
        return Ok(None);
    };
    let Some(row) = row_of(alloc, entry, completion)? else {
        return Ok(None);
    };
    Ok(Some(row))
}

/// The request's completion: one that was taken, or one of the end.
fn completion_of<'a>(
    req: Req,
    taken: &'a [Completion],
    left: &'a [(Completion, bool)],
) -> Option<&'a Completion>
    ensures { IfSome result (λ x. IsFound req taken.now left.now x.now) }
{
    for place in 0..taken.len() {
        if taken[place].req == req {
            return Some(&taken[place]);
        }
    }
    for place in 0..left.len() {
        if left[place].0.req == req {
            return Some(&left[place].0);
        }
    }
    None
}

/// The row of an entry with this completion. None where a READ got more than its buffer has.
fn row_of(
    alloc: Global,
    entry: &Named,
    completion: &Completion,
) -> Result<Option<(i32, Vec<u8>)>, AllocError>
    ensures { IfOk result (λ found. IfSome found (IsRowOf entry.now completion.now)) }
{
    let res = completion.cqe.res;
    let count = data_count(entry.sqe.op(), res);
    if count > completion.buffer.len() {
        return Ok(None);
    }
    let data = Vec::from_slice(alloc, &completion.buffer[..count])?;
    Ok(Some((res, data)))
}

macro_rules! data_of_buffer {
    ([no_buffer] ($res:ident)) => { 0 };
    ([reads $len:ident] ($res:ident)) => { usize::try_from($res).unwrap_or(0) };
    ([writes $len:ident] ($res:ident)) => { 0 };
    ([any_buffer] ($res:ident)) => { 0 };
}

/// How many bytes of data belong to the reply: as many as it says of a READ, and none of another entry.
fn data_count(op: Op, res: i32) -> usize
    ensures { result ≡ data_count op res }
{
    by_opcode!(buffer of op => data_of_buffer!(res))
}
