//! The bytes of buffers, and how far a client is with its end of the stream.
use crate::pipes::STREAM;
use entry::Op;
use std::alloc::{AllocError, Global};

/// What a buffer is filled with that nothing is written from. It is no byte of a WRITE.
const FILLING: u8 = 255;

/// How many bytes the client of a ring has written to the stream, or read from it, and whether a request for the next ones is under way.
#[derive(Clone, Copy)]
pub(crate) struct Flow {
    ring: u16,
    done: u64,
    is_busy: bool,
}

/// The byte at a place of the stream.
fn byte_at(place: u64) -> u8 {
    (place % 251) as u8
}

/// How long the buffer of an entry is, and whether it has bytes to be written.
fn length_of(op: Op) -> (u32, bool) {
    match op {
        Op::Read { len, .. } => (len, false),
        Op::Write { len, .. } => (len, true),
        _ => (0, false),
    }
}

/// The buffer of an entry whose bytes begin at this place.
pub(crate) fn buffer_of(alloc: Global, op: Op, from: u64) -> Result<Vec<u8>, AllocError> {
    let (len, is_write) = length_of(op);
    let mut buffer = Vec::from_elem(alloc, FILLING, len as usize)?;
    for (i, byte) in (0u64..).zip(&mut buffer) {
        if is_write {
            *byte = byte_at(from.wrapping_add(i));
        }
    }
    Ok(buffer)
}

/// Whether these are the bytes that begin at this place.
pub(crate) fn are_bytes(bytes: &[u8], from: u64) -> bool {
    let mut numbered = (0u64..).zip(bytes);
    numbered.all(|(i, byte)| *byte == byte_at(from.wrapping_add(i)))
}

impl Flow {
    /// That of the client of a ring that has submitted nothing.
    pub fn new(ring: u16) -> Flow {
        Flow {
            ring,
            done: 0,
            is_busy: false,
        }
    }

    /// Whether it may submit a WRITE, or a READ, of the stream now.
    pub fn may_go_on(&self, is_write: bool) -> bool {
        !self.is_busy && is_write == (self.ring == 0)
    }

    /// Whether a request is one of the stream.
    fn is_stream(&self, op: Op) -> bool {
        match op {
            Op::Write { fd, .. } => self.ring == 0 && fd == STREAM[0],
            Op::Read { fd, .. } => self.ring == 1 && fd == STREAM[3],
            _ => false,
        }
    }

    /// Notes that a request was drawn. The place of its bytes in the stream, or else this one.
    pub fn begin(&mut self, op: Op, place: u64) -> u64 {
        if !self.is_stream(op) {
            return place;
        }
        self.is_busy = true;
        self.done
    }

    /// Notes the reply to a request, or 0 where it isn't submitted.
    pub fn finish(&mut self, op: Op, res: i32) {
        if self.is_stream(op) {
            self.done = self.done.saturating_add(u64::try_from(res).unwrap_or(0));
            self.is_busy = false;
        }
    }

    /// Whether what a READ has read are the next bytes of the stream, or at least bytes of WRITEs, and all others are as they were.
    pub fn is_right(&self, op: Op, from: u64, res: i32, buffer: &[u8]) -> bool {
        let (len, is_write) = length_of(op);
        let data = u64::try_from(res).unwrap_or(0);
        for (i, byte) in (0u64..).zip(buffer) {
            let is_known = is_write || (i < data && self.is_stream(op));
            if is_known && *byte != byte_at(from.wrapping_add(i)) {
                return false;
            }
            if !is_known && (*byte == FILLING) != (data <= i) {
                return false;
            }
        }
        buffer.len() as u64 == u64::from(len)
    }
}
