//! What an operation comes to, and the reply that follows.
ghost use Rattle.std.specs.Prelude.{◌≡◌, ◌↔◌, take, List, IsTrue, IfOk, OnErr, MatchOption};
ghost use Rattle.history.specs.{size, now, later, bare, with_front};
ghost use Rattle.model.specs.Content.{Content, bytes_at};
ghost use Rattle.model.specs.Ready.{answer_as, answer_of, IsNow};

use crate::pipe::{Pipe, bytes_at};
use history::Bytes;
use std::alloc::{AllocError, Global};

/// What an operation comes to now.
#[derive(Clone, Copy)]
pub enum Ready {
    /// A reply without data.
    Now(i32),
    /// The same, with as many bytes at the front of this pipe as data as it says.
    Front(usize, i32),
    /// No reply yet.
    Wait,
}

impl Ready {
    /// A reply without data.
    pub fn bare(reply: Option<i32>) -> Ready
        ensures { (ps : List Content) → answer_as ps result ≡ bare reply }
    {
        match reply {
            Some(res) => Ready::Now(res),
            None => Ready::Wait,
        }
    }

    /// A reply whose data are the first bytes of this pipe.
    pub fn front(pipe: usize, reply: Option<i32>) -> Ready
        ensures { (ps : List Content) → answer_as ps result ≡ with_front (bytes_at ps pipe) reply }
    {
        match reply {
            Some(res) => Ready::Front(pipe, res),
            None => Ready::Wait,
        }
    }

    /// Its reply, with the data.
    fn reply(self, pipes: &[Pipe]) -> Option<(i32, &[u8])>
        ensures { MatchOption result (answer_as pipes.now self ≡ later) (λ r. answer_as pipes.now self ≡ now r.0 r.1.now) }
    {
        match self {
            Ready::Now(res) => Some((res, &[])),
            Ready::Front(pipe, res) => Some((res, front(bytes_at(pipes, pipe), size(res)))),
            Ready::Wait => None,
        }
    }

    /// It is this reply with these data.
    pub fn is(self, pipes: &[Pipe], res: i32, bytes: &[u8]) -> bool
        ensures { IsTrue result ↔ (answer_as pipes.now self ≡ now res bytes.now) }
    {
        match self.reply(pipes) {
            Some((reply, data)) => reply == res && data == bytes,
            None => false,
        }
    }

    /// Its reply, with a copy of the data. An error says that there is one.
    pub fn copy(self, alloc: Global, pipes: &[Pipe]) -> Result<Option<(i32, Bytes)>, AllocError>
        ensures answer { IfOk result (λ x. answer_of x ≡ answer_as pipes.now self) }
        ensures wanting { OnErr result (IsNow (answer_as pipes.now self)) }
    {
        match self.reply(pipes) {
            Some((res, data)) => Ok(Some((res, Bytes::copy(alloc, data)?))),
            None => Ok(None),
        }
    }
}

/// How many bytes a reply stands for.
pub fn size(res: i32) -> usize
    ensures { result ≡ size res }
{
    if res < 0 {
        0
    } else {
        res.unsigned_abs() as usize
    }
}

/// At most the first `n` bytes.
pub fn front(bytes: &[u8], n: usize) -> &[u8]
    ensures { result.now ≡ take n bytes.now }
{
    &bytes[..n.min(bytes.len())]
}
