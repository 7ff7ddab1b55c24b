//! The client of a ring with what it has taken of its completions.
ghost use Rattle.std.specs.Prelude.{◌≡◌, [], None, IsTrue, false};
ghost use Rattle.history.specs.History.{phase, IsReplied};
ghost use Rattle.script_run.specs.{Went, seen_by, CameTo, LooksInVain};

use crate::clock::has_reply;
use crate::lines::Halt;
use board::{Completion, SubmitError};
use entry::Sqe;
use history::Req;
use runtime::Client;
use std::alloc::{AllocError, Global};
use std::sync::Wait;
use std::time::Duration;

/// The client of a ring, the completions that it has taken, how many requests it has submitted, and why its lines were stopped, if
/// they were.
#[derive(Drop)]
pub(crate) struct Actor {
    pub client: Client,
    pub taken: Vec<Completion>,
    pub submitted: usize,
    pub halt: Option<Halt>,
}

/// The entries of a line, with their buffers.
pub(crate) type Batch = Vec<(Sqe, Vec<u8>)>;

/// What became of a try to submit a batch.
#[derive(Drop)]
pub(crate) enum Tried {
    Submitted,
    /// A cell isn't free; the batch comes back.
    Full(Batch),
    /// The board takes no such batch, however often it is tried.
    Refused,
}

impl Actor {
    /// The actor of a client that has submitted nothing yet.
    pub fn new(alloc: Global, client: Client) -> Actor
        ensures client { result.client ≡ client }
        ensures none { (result.taken.items ≡ []) × (result.halt ≡ None) }
    {
        Actor {
            client,
            taken: Vec::new(alloc),
            submitted: 0,
            halt: None,
        }
    }

    /// Tries to submit a batch.
    pub fn try_submit(&mut self, batch: Batch) -> Tried
        ensures { CameTo batch.items self.old self.new result }
    {
        let count = batch.len();
        match self.client.submit_batch(batch) {
            Ok(_first) => {
                self.submitted = self.submitted.saturating_add(count);
                Tried::Submitted
            }
            Err((SubmitError::Full, batch)) => Tried::Full(batch),
            Err(_) => Tried::Refused,
        }
    }

    /// Takes all completions that are there. Whether there was one.
    pub fn take_all<R: Wait>(&mut self, rt: &R) -> Result<bool, AllocError>
        ensures { Went self.old self.new }
    {
        let before = self.taken.len();
        for _ in rt.forever() {
            self.taken.reserve(1)?;
            let Some(completion) = self.client.take(rt) else {
                return Ok(before < self.taken.len());
            };
            self.taken.push(completion)?;
        }
        unreachable!()
    }

    /// Takes the next completion, for which it waits no longer than about `most`. Whether there was one.
    pub fn take_within<R: Wait>(&mut self, rt: &R, most: Duration) -> Result<bool, AllocError>
        ensures { Went self.old self.new }
    {
        self.taken.reserve(1)?;
        let Some(completion) = self.client.wait_timeout(rt, most) else {
            return Ok(false);
        };
        self.taken.push(completion)?;
        Ok(true)
    }

    /// Whether the request has its reply.
    pub fn sees_reply(&mut self, req: Req) -> bool
        ensures went { Went self.old self.new }
        ensures replied { IsTrue result → IsReplied (phase (seen_by self.new) req) }
        ensures vain { result ≡ false → LooksInVain req self.old self.new }
    {
        let phase = self.client.look(req);
        has_reply(Some(phase))
    }
}
