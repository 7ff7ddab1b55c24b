//! Entries and events, as the words of a case name them.
ghost use Rattle.std.specs.Prelude.{◌≡◌, IsTrue, None};

use crate::words::Words;
use bitflags::Flags;
use entry::{Sqe, SqeFlags};
use history::{Bytes, Event, Req};
use prep::{with_flags, with_user_data};
use std::alloc::AllocError;

const ETIME_SUCCESS: u32 = 32;

const ZEROS: [u8; 16] = [0; 16];

/// An event: `tick NUMBER`, `shut`, or its name, a request, and what else it has: the target of a `take`, `miss`, `fire` or
/// `fire-miss`, an `arm`'s deadline, a `reply`'s number and bytes, a `submit`'s entry.
pub fn event_of(words: &mut Words<'_>) -> Result<Event, AllocError>
    ensures kept { IsTrue words.old.is_bad → IsTrue words.new.is_bad }
    ensures missing { words.old.rest ≡ None → IsTrue words.new.is_bad }
{
    match words.word() {
        "tick" => Ok(Event::Tick(words.number())),
        "shut" => Ok(Event::Shut),
        kind => {
            let req = words.req();
            event_at(kind, req, words)
        }
    }
}

/// An event that happens to a request.
fn event_at(kind: &str, req: Req, words: &mut Words<'_>) -> Result<Event, AllocError>
    ensures kept { IsTrue words.old.is_bad → IsTrue words.new.is_bad }
{
    Ok(match kind {
        "begin" => Event::Begin(req),
        "park" => Event::Park(req),
        "expire" => Event::Expire(req),
        "count" => Event::Count(req),
        "settle" => Event::Settle(req),
        "sever" => Event::Sever(req),
        "reap" => Event::Reap(req),
        "cut" => Event::Cut(req),
        "arm" => Event::Arm {
            req,
            deadline: words.number(),
        },
        "reply" => Event::Reply {
            req,
            res: words.number(),
            data: Bytes::new(words.bytes()?),
        },
        "submit" => {
            let (sqe, buffer) = entry_of(words)?;
            Event::Submit {
                req,
                sqe,
                bytes: Bytes::new(buffer),
                last: true,
            }
        }
        _ => {
            let target = words.req();
            event_between(kind, req, target, words)
        }
    })
}

/// An event that a cancel or a timer makes at its target.
fn event_between(kind: &str, by: Req, target: Req, words: &mut Words<'_>) -> Event
    ensures kept { IsTrue words.old.is_bad → IsTrue words.new.is_bad }
{
    match kind {
        "take" => Event::Take { cancel: by, target },
        "miss" => Event::Miss { cancel: by, target },
        "fire" => Event::Fire { timer: by, target },
        "fire-miss" => Event::FireMiss { timer: by, target },
        _ => words.bad(Event::Shut),
    }
}

/// An entry with its options, in this order, `drain`, `link`, `hard`, `flags NUMBER`, `ud NUMBER` and `buffer BYTES`, and its
/// buffer: of a READ as many zeros as it asks for, and at most 16.
pub fn entry_of(words: &mut Words<'_>) -> Result<(Sqe, Vec<u8>), AllocError>
    ensures kept { IsTrue words.old.is_bad → IsTrue words.new.is_bad }
    ensures missing { words.old.rest ≡ None → IsTrue words.new.is_bad }
{
    let (mut sqe, buffer) = plain_entry(words)?;
    let mut flags = sqe.flags().bits();
    if words.option("drain") {
        flags |= SqeFlags::IO_DRAIN.bits();
    }
    if words.option("link") {
        flags |= SqeFlags::IO_LINK.bits();
    }
    if words.option("hard") {
        flags |= SqeFlags::IO_LINK.bits() | SqeFlags::IO_HARDLINK.bits();
    }
    if words.option("flags") {
        flags = words.number();
    }
    sqe = with_flags(sqe, flags);
    if words.option("ud") {
        sqe = with_user_data(sqe, words.number());
    }
    if words.option("buffer") {
        Ok((sqe, words.bytes()?))
    } else {
        Ok((sqe, buffer))
    }
}

/// An entry without options, and the buffer of a READ or a WRITE.
fn plain_entry(words: &mut Words<'_>) -> Result<(Sqe, Vec<u8>), AllocError>
    ensures kept { IsTrue words.old.is_bad → IsTrue words.new.is_bad }
    ensures missing { words.old.rest ≡ None → IsTrue words.new.is_bad }
{
    match words.word() {
        "nop" => Ok((prep::nop(), Vec::new(words.alloc))),
        "raw" => Ok((raw_entry(words)?, Vec::new(words.alloc))),
        "read" => {
            let (fd, len): (i32, u32) = (words.number(), words.number());
            let zeros = Vec::from_slice(words.alloc, &ZEROS[..len.min(16) as usize])?;
            Ok((prep::read(fd, len, 0), zeros))
        }
        "write" => {
            let (fd, bytes) = (words.number(), words.bytes()?);
            let len = bytes.len().min(65_535) as u32;
            Ok((prep::write(fd, len, 0), bytes))
        }
        kind => Ok((entry_without_buffer(kind, words), Vec::new(words.alloc))),
    }
}

/// The entry that at most 64 bytes say, with bytes 0 after them.
fn raw_entry(words: &mut Words<'_>) -> Result<Sqe, AllocError>
    ensures kept { IsTrue words.old.is_bad → IsTrue words.new.is_bad }
{
    let bytes = words.bytes()?;
    let mut entry = [0u8; 64];
    if bytes.len() <= 64 {
        entry[..bytes.len()].copy_from_slice(&bytes);
    } else {
        words.is_bad = true;
    }
    Ok(Sqe::of_bytes(&entry))
}

/// An entry without a buffer of its own.
fn entry_without_buffer(kind: &str, words: &mut Words<'_>) -> Sqe
    ensures kept { IsTrue words.old.is_bad → IsTrue words.new.is_bad }
{
    match kind {
        "read-at" => prep::read(words.number(), words.number(), words.number()),
        "write-at" => prep::write(words.number(), words.number(), words.number()),
        "splice" => prep::splice(words.number(), words.number(), words.number()),
        "close" => prep::close(words.number()),
        "poll" => prep::poll_add(words.number(), words.number()),
        "timeout" => prep::timeout(words.number(), 0),
        "timeout-ok" => prep::timeout(words.number(), ETIME_SUCCESS),
        "timeout-with" => prep::timeout(words.number(), words.number()),
        "timeout-count" => prep::timeout_count(words.number(), words.number(), 0),
        "timeout-count-with" => {
            prep::timeout_count(words.number(), words.number(), words.number())
        }
        "link-timeout" => prep::link_timeout(words.number()),
        "cancel" => prep::cancel(words.number()),
        "cancel-all" => prep::cancel_all(words.number()),
        "remove" => prep::timeout_remove(words.number()),
        _ => words.bad(prep::nop()),
    }
}
