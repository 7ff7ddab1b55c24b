//! What is in the pipes, and which of their ends are closed.

use crate::list::List;
use entry::Op;
use history::{Event, Req};

#[derive(Clone, Copy, PartialEq, Eq)]
pub enum End {
    Nothing,
    Read(usize),
    Write(usize),
}

/// Where bytes came from that went into a pipe.
#[derive(Clone, Copy)]
enum Source<'a> {
    Nothing,
    /// The buffer of a WRITE.
    Buffer(&'a [u8]),
    /// The front of another pipe, by a SPLICE.
    Pipe(usize),
}

impl<'a> List<'a> {
    /// The pipe p has the read end 2p and the write end 2p + 1.
    pub fn end(self, fd: i32) -> End {
        if fd < 0 {
            return End::Nothing;
        }
        let n = fd.unsigned_abs() as usize;
        if n / 2 >= self.caps.len() {
            End::Nothing
        } else if n % 2 == 0 {
            End::Read(n / 2)
        } else {
            End::Write(n / 2)
        }
    }

    /// The entry that an event answers with a number above 0, and that number.
    fn moved(self, event: &Event) -> Option<(Req, Op, usize)> {
        let Event::Reply { req, res, .. } = event else {
            return None;
        };
        if *res <= 0 {
            return None;
        }
        Some((*req, self.placed(*req)?.op, res.unsigned_abs() as usize))
    }

    /// How many bytes went into the pipe by this event, and where they came from.
    fn put(self, event: &Event, p: usize) -> (usize, Source<'a>) {
        match self.moved(event) {
            Some((req, Op::Write { fd, .. }, n)) if self.end(fd) == End::Write(p) => {
                let bytes = self.buffer(req);
                (n.min(bytes.len()), Source::Buffer(bytes))
            }
            Some((_, Op::Splice { fd_in, fd_out, .. }, n)) if self.end(fd_out) == End::Write(p) => {
                match self.end(fd_in) {
                    End::Read(from) => (n, Source::Pipe(from)),
                    _ => (0, Source::Nothing),
                }
            }
            _ => (0, Source::Nothing),
        }
    }

    /// The buffer that was handed in.
    fn buffer(self, r: Req) -> &'a [u8] {
        match self.handed(r) {
            Some(handed) => handed.bytes,
            None => &[],
        }
    }

    /// How many bytes left the pipe by this event.
    fn taken(self, event: &Event, p: usize) -> usize {
        match self.moved(event) {
            Some((_, Op::Read { fd, .. } | Op::Splice { fd_in: fd, .. }, n)) => {
                if self.end(fd) == End::Read(p) { n } else { 0 }
            }
            _ => 0,
        }
    }

    /// All bytes that went in, and all that came out.
    fn into_and_out(self, p: usize) -> (usize, usize) {
        let mut into = 0usize;
        let mut out = 0usize;
        for event in self.events {
            into = into.wrapping_add(self.put(*event, p).0);
            out = out.wrapping_add(self.taken(*event, p));
        }
        (into, out)
    }

    pub fn content_len(self, p: usize) -> usize {
        let (into, out) = self.into_and_out(p);
        into.saturating_sub(out)
    }

    /// The first of the events, this many of them.
    fn first_events(self, n: usize) -> List<'a> {
        List {
            rings: self.rings,
            caps: self.caps,
            events: &self.events[..n.min(self.events.len())],
        }
    }

    /// The byte at this place of all that went into the pipe. The event that put it there is looked for from the last one
    /// back: a WRITE has it in its buffer; after a SPLICE it was at a place of another pipe before.
    fn byte(self, pipe: usize, place: usize) -> Option<u8> {
        let mut p = pipe;
        let mut place = place;
        for i in (0..self.events.len()).rev() {
            let (n, source) = self.put(self.events[i], p);
            if n == 0 {
                continue;
            }
            let earlier = self.first_events(i);
            let (into, _) = earlier.into_and_out(p);
            if place < into || place - into >= n {
                continue;
            }
            match source {
                Source::Buffer(bytes) => return bytes.get(place - into).copied(),
                Source::Pipe(from) => {
                    let (_, out) = earlier.into_and_out(from);
                    place = out.wrapping_add(place - into);
                    p = from;
                }
                Source::Nothing => return None,
            }
        }
        None
    }

    /// The data are the first bytes of the pipe.
    pub fn is_front(self, p: usize, data: &[u8]) -> bool {
        let (_, out) = self.into_and_out(p);
        for (i, byte) in data.iter().enumerate() {
            if self.byte(p, out.wrapping_add(i)) != Some(*byte) {
                return false;
            }
        }
        true
    }

    /// A CLOSE of the end was answered with 0.
    pub fn is_closed(self, end: End) -> bool {
        for event in self.events {
            if let Event::Reply { req, res: 0, .. } = *event
                && self.closes(*req, end)
            {
                return true;
            }
        }
        false
    }

    fn closes(self, r: Req, end: End) -> bool {
        match self.placed(r) {
            Some(placed) => match placed.op {
                Op::Close { fd } => self.end(fd) == end,
                _ => false,
            },
            None => false,
        }
    }

    pub fn is_open_end(self, end: End) -> bool {
        end != End::Nothing && !self.is_closed(end)
    }

    pub fn cap(self, p: usize) -> usize {
        match self.caps.get(p) {
            Some(cap) => *cap as usize,
            None => 0,
        }
    }

    pub fn free(self, p: usize) -> usize {
        self.cap(p).saturating_sub(self.content_len(p))
    }
}
