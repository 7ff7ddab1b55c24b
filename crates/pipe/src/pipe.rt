//! The pipe.
ghost use Rattle.std.specs.Prelude.{◌≡◌, ◌<◌, ◌≤◌, ◌+◌, ◌↔◌, ◌⊎◌, ◌++◌, length, take, drop, IfOk, IsErrOf};
ghost use Rattle.circular_buffer.specs.Buffer.{buffer};
ghost use Rattle.level.specs.Replies.{close_reply, is_closed, moved, poll_reply, read_reply, size, splice_reply, write_reply};
ghost use Rattle.pipe.specs.{IsConduit, level_of, new_conduit, OnIdle, after_read, after_write, after_close};

use crate::error::PipeError;
use circular_buffer::HeapCircularBuffer;
use level::{End, Level};
use limits::CAPACITY;
use std::alloc::Global;
use std::marker::Model;

/// A pipe of a fixed capacity. Contracts see its bytes and its ends as a `Conduit`.
#[derive(Drop)]
pub struct Pipe {
    bytes: HeapCircularBuffer<u8>,
    read_closed: bool,
    write_closed: bool,
}

impl Model for Pipe {
    ghost use Rattle.pipe.specs.Pipe.{Conduit, IsConduit};

    ghost Value = { Conduit };

    ghost use Rattle.pipe.specs.Inside.{conduit_of};

    ghost view = { conduit_of };

    ghost invariant = { λ p. IsConduit (conduit_of p) };
}

impl Pipe {
    /// An empty pipe for `cap` bytes, with both ends open. Its room is made here, once.
    pub fn new(alloc: Global, cap: u32) -> Result<Pipe, PipeError>
        ensures bad_capacity { IsErrOf result PipeError.BadCapacity ↔ ((cap ≡ 0) ⊎ (65536 < cap)) }
        ensures empty { IfOk result (λ pipe. pipe ≡ new_conduit cap) }
        ensures limits { IfOk result (λ pipe. IsConduit pipe) }
    {
        if cap == 0 || cap > CAPACITY {
            return Err(PipeError::BadCapacity);
        }
        let bytes = HeapCircularBuffer::with_capacity(alloc, cap as usize)?;
        Ok(Pipe {
            bytes,
            read_closed: false,
            write_closed: false,
        })
    }

    /// Takes the oldest bytes out, as many as `buffer` holds, and puts them at its front (read(2)). As for each call: the reply is
    /// a number of bytes, or that of an error below 0; None, where there is none now, and nothing has changed.
    pub fn read_into(&mut self, buffer: &mut [u8]) -> Option<i32>
        ensures reply { result ≡ read_reply (level_of self.old) (length buffer.old) }
        ensures data { buffer.new ≡ take (moved result) self.old.content ++ drop (moved result) buffer.old }
        ensures left { self.new ≡ after_read (moved result) self.old }
        ensures unchanged { OnIdle result ((self.new ≡ self.old) × (buffer.new ≡ buffer.old)) }
        ensures count { moved result ≤ 65536 }
        ensures limits { IsConduit self.new }
    {
        let reply = self.level().read(buffer.len() as u64);
        self.bytes.read_into(&mut buffer[..moved(reply)]);
        reply
    }

    /// Puts bytes in after those that are there (write(2)). At most the capacity goes in whole or not at all, more
    /// than that as far as there is room.
    pub fn write_from(&mut self, bytes: &[u8]) -> Option<i32>
        ensures reply { result ≡ write_reply (level_of self.old) (length bytes.now) }
        ensures gone_in { self.new ≡ after_write (moved result) bytes.now self.old }
        ensures unchanged { OnIdle result (self.new ≡ self.old) }
        ensures count { moved result ≤ 65536 }
        ensures limits { IsConduit self.new }
    {
        let reply = self.level().write(bytes.len() as u64);
        self.bytes.fill_from_slice(&bytes[..moved(reply)]);
        reply
    }

    /// Moves the oldest bytes into another pipe, after those that are there: as many as are here and as it has room for, at
    /// most `len` (splice(2)). Whether this pipe is open to readers and the other to writers isn't looked at.
    pub fn splice_to(&mut self, target: &mut Pipe, len: u32) -> Option<i32>
        ensures reply { result ≡ splice_reply (level_of self.old) (level_of target.old) len }
        ensures left { self.new ≡ after_read (moved result) self.old }
        ensures gone_in { target.new ≡ after_write (moved result) self.old.content target.old }
        ensures unchanged { OnIdle result ((self.new ≡ self.old) × (target.new ≡ target.old)) }
        ensures count { moved result ≤ 65536 }
        ensures limits { IsConduit self.new × IsConduit target.new }
    {
        let reply = self.level().splice(target.level(), u64::from(len));
        move_bytes(&mut self.bytes, &mut target.bytes, moved(reply));
        reply
    }

    /// Closes an end (close(2)). An end is closed once, which is answered with 0.
    pub fn close_end(&mut self, end: End) -> Option<i32>
        ensures reply { result ≡ close_reply (level_of self.old) end }
        ensures closed { self.new ≡ after_close end self.old }
        ensures unchanged { OnIdle result (self.new ≡ self.old) }
        ensures limits { IsConduit self.new }
    {
        let reply = self.level().close(end);
        match end {
            End::Read => self.read_closed = true,
            End::Write => self.write_closed = true,
        }
        reply
    }

    /// The events of an end that are in `mask`, and `POLLERR` and `POLLHUP` in any case (poll(2)).
    pub fn poll_mask(&self, end: End, mask: u32) -> Option<i32>
        ensures reply { result ≡ poll_reply (level_of self.now) end mask }
        ensures limits { IsConduit self.now }
    {
        self.level().poll(end, mask)
    }

    /// Whether an end is closed.
    pub fn is_closed(&self, end: End) -> bool
        ensures closed { result ≡ is_closed end (level_of self.now) }
        ensures limits { IsConduit self.now }
    {
        self.level().is_closed(end)
    }

    /// What its replies are decided by.
    pub fn level(&self) -> Level
        ensures is { result ≡ level_of self.now }
        ensures limits { IsConduit self.now }
    {
        Level {
            capacity: self.bytes.capacity() as u64,
            count: self.bytes.len() as u64,
            read_closed: self.read_closed,
            write_closed: self.write_closed,
        }
    }
}

/// How many bytes go over by a reply.
fn moved(reply: Option<i32>) -> usize
    ensures { result ≡ moved reply }
{
    match reply {
        Some(res) if res > 0 => res.unsigned_abs() as usize,
        _ => 0,
    }
}

/// Moves the first bytes into another buffer, after those that are there.
fn move_bytes(from: &mut HeapCircularBuffer<u8>, to: &mut HeapCircularBuffer<u8>, count: usize)
    requires here { count ≤ length from.old.items }
    requires room { length to.old.items + count ≤ to.old.capacity }
    ensures left { from.new ≡ buffer (drop count from.old.items) from.old.capacity }
    ensures gone_in { to.new ≡ buffer (to.old.items ++ take count from.old.items) to.old.capacity }
{
    let (front, back) = from.as_slices();
    let in_front = count.min(front.len());
    to.fill_from_slice(&front[..in_front]);
    to.fill_from_slice(&back[..count - in_front]);
    from.truncate_front(from.len() - count);
}
