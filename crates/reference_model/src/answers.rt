//! The table of answers. Its error numbers are -2 ENOENT, -9 EBADF, -22 EINVAL, -32 EPIPE and -114 EALREADY of errno(3).

use crate::list::List;
use crate::pipes::End;
use entry::Op;
use history::{Event, Req};

impl<'a> List<'a> {
    /// The request, which runs, may be answered so.
    pub fn answers(self, r: Req, res: i32, data: &[u8]) -> bool {
        let Some(placed) = self.placed(r) else {
            return false;
        };
        match placed.op {
            Op::Read { fd, len, .. } => self.answers_read(self.end(fd), len as usize, res, data),
            Op::AsyncCancel { all: true, .. } => data.is_empty() && self.answers_all(r, res),
            Op::AsyncCancel { .. } | Op::TimeoutRemove { .. } => {
                data.is_empty() && self.answers_cancel(r, res)
            }
            op => data.is_empty() && self.number(op) == Some(i64::from(res)),
        }
    }

    fn answers_read(self, end: End, len: usize, res: i32, data: &[u8]) -> bool {
        let (End::Read(p), true) = (end, self.is_open_end(end)) else {
            return res == -9 && data.is_empty();
        };
        let there = self.content_len(p);
        if len > 0 && there > 0 {
            let n = len.min(there);
            return res > 0
                && res.unsigned_abs() as usize == n
                && data.len() == n
                && self.is_front(p, data);
        }
        res == 0 && data.is_empty() && (len == 0 || self.is_closed(End::Write(p)))
    }

    /// The answer of an operation that is no READ and no cancel, if it has one now.
    fn number(self, op: Op) -> Option<i64> {
        match op {
            Op::Nop => Some(0),
            Op::Invalid => Some(-22),
            Op::Write { fd, len, .. } => self.write(self.end(fd), len),
            Op::Close { fd } => Some(if self.is_open_end(self.end(fd)) {
                0
            } else {
                -9
            }),
            Op::PollAdd { fd, mask } => self.poll(self.end(fd), mask),
            Op::Splice { fd_in, fd_out, len } => {
                self.splice(self.end(fd_in), self.end(fd_out), len as usize)
            }
            _ => None,
        }
    }

    fn write(self, end: End, len: u32) -> Option<i64> {
        let (End::Write(p), true) = (end, self.is_open_end(end)) else {
            return Some(-9);
        };
        let free = self.free(p);
        if len == 0 {
            Some(0)
        } else if self.is_closed(End::Read(p)) {
            Some(-32)
        } else if len as usize <= self.cap(p) {
            if free >= len as usize {
                Some(i64::from(len))
            } else {
                None
            }
        } else if free >= 1 {
            i64::try_from(free).ok()
        } else {
            None
        }
    }

    fn splice(self, from: End, to: End, len: usize) -> Option<i64> {
        let (End::Read(source), true) = (from, self.is_open_end(from)) else {
            return Some(-9);
        };
        let (End::Write(target), true) = (to, self.is_open_end(to)) else {
            return Some(-9);
        };
        let there = self.content_len(source);
        let free = self.free(target);
        if source == target {
            Some(-22)
        } else if len == 0 {
            Some(0)
        } else if self.is_closed(End::Read(target)) {
            Some(-32)
        } else if there > 0 && free > 0 {
            i64::try_from(len.min(there).min(free)).ok()
        } else if there == 0 && self.is_closed(End::Write(source)) {
            Some(0)
        } else {
            None
        }
    }

    fn poll(self, end: End, mask: u32) -> Option<i64> {
        if !self.is_open_end(end) {
            return Some(-9);
        }
        let bits = match end {
            End::Read(p) => self.bit(1, self.content_len(p) > 0)
                | self.bit(16, self.is_closed(End::Write(p))),
            End::Write(p) => self.bit(4, self.free(p) >= 1)
                | self.bit(8, self.is_closed(End::Read(p))),
            End::Nothing => 0,
        };
        match bits & (mask | 24) {
            0 => None,
            told => Some(i64::from(told)),
        }
    }

    fn bit(self, bit: u32, holds: bool) -> u32 {
        if holds { bit } else { 0 }
    }

    /// The cancel means this request: an earlier one of its ring with the user_data that it names.
    pub fn is_match(self, c: Req, t: Req) -> bool {
        let (Some(cancel), Some(placed)) = (self.placed(c), self.placed(t)) else {
            return false;
        };
        if t.ring != c.ring || t.k >= c.k {
            return false;
        }
        match cancel.op {
            Op::AsyncCancel { user_data, .. } => {
                placed.user_data == user_data && !matches!(placed.op, Op::LinkTimeout { .. })
            }
            Op::TimeoutRemove { user_data } => {
                placed.user_data == user_data && matches!(placed.op, Op::Timeout { .. })
            }
            _ => false,
        }
    }

    /// The match of least number that has no answer.
    pub fn first(self, c: Req) -> Option<Req> {
        for k in 0..c.k {
            let t = Req { ring: c.ring, k };
            if self.is_match(c, t) && self.reply(t).is_none() {
                return Some(t);
            }
        }
        None
    }

    pub fn has_taken(self, c: Req) -> bool {
        for event in self.events {
            if let Event::Take { cancel, .. } = *event
                && *cancel == c
            {
                return true;
            }
        }
        false
    }

    pub fn has_missed(self, c: Req) -> bool {
        for event in self.events {
            if let Event::Miss { cancel, .. } = *event
                && *cancel == c
            {
                return true;
            }
        }
        false
    }

    /// The cancel ended this request, or found it running.
    pub fn has_hit(self, c: Req, t: Req) -> bool {
        for event in self.events {
            if let Event::Take { cancel, target } | Event::Miss { cancel, target } = *event
                && *cancel == c
                && *target == t
            {
                return true;
            }
        }
        false
    }

    /// How many requests the cancel ended.
    fn takes(self, c: Req) -> u64 {
        let mut takes = 0u64;
        for event in self.events {
            if let Event::Take { cancel, .. } = *event
                && *cancel == c
            {
                takes = takes.wrapping_add(1);
            }
        }
        takes
    }

    /// Each match has an answer or was found running, and the reply is how many the cancel ended.
    fn answers_all(self, c: Req, res: i32) -> bool {
        for k in 0..c.k {
            let t = Req { ring: c.ring, k };
            if self.is_match(c, t) && self.reply(t).is_none() && !self.has_hit(c, t) {
                return false;
            }
        }
        res >= 0 && u64::from(res.unsigned_abs()) == self.takes(c)
    }

    fn answers_cancel(self, c: Req, res: i32) -> bool {
        if self.has_taken(c) {
            res == 0
        } else if self.has_missed(c) {
            res == -114
        } else {
            res == -2 && self.first(c).is_none()
        }
    }
}
