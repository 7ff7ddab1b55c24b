//! A client at work on its load.
ghost use Rattle.std.specs.Prelude.{◌≡◌};

use crate::load::{Counts, Fault, Load};
use crate::machine::looked;
use anyhow::{Result, bail};
use board::{Completion, SubmitError};
use runtime::Client;
use std::sync::Wait;
use std::thread;
use std::time::{Clock, Duration};

/// A client and its load, how long it sleeps before each round, and what was submitted and taken.
pub(crate) struct Driver<L: Load> {
    pub client: Client,
    pub load: L,
    pub pause: Duration,
    pub counts: Counts,
}

impl<L: Load> Driver<L> {
    /// That of this client and this load, with nothing submitted yet.
    pub fn new(client: Client, load: L, pause: Duration) -> Driver<L>
        ensures { result.client ≡ client }
    {
        Driver {
            client,
            load,
            pause,
            counts: Counts::default(),
        }
    }

    /// Its client and its load.
    pub fn parts(self) -> (Client, L)
        ensures { result.0 ≡ self.client }
    {
        let Driver {
            client,
            load,
            pause: _,
            counts: _,
        } = self;
        (client, load)
    }

    /// Carries a round of the load out, of this many units or turns.
    pub fn serve<R: Wait + Clock>(&mut self, rt: &R, count: u64) -> Result<()>
        ensures { self.new.client.board ≡ self.old.client.board }
    {
        thread::sleep(rt, self.pause);
        self.load.begin(count);
        let mut looks = 0;
        for _ in rt.forever() {
            let went = if let Some(completion) = self.client.take(rt) {
                looks = 0;
                self.take(completion)
            } else if self.load.is_over() {
                return Ok(());
            } else {
                let went = self.submit(rt);
                // A look is long enough: after a pause of the processor a completion would only have waited.
                looks = looked(looks);
                went
            };
            if let Err(fault) = went {
                return refuse(fault);
            }
        }
        unreachable!()
    }

    /// Submits the next batch, if there is something in it, and blocks until as many completions are there as the load awaits.
    fn submit<R: Wait>(&mut self, rt: &R) -> Result<(), Fault>
        ensures { self.new.client.board ≡ self.old.client.board }
    {
        let Ok((batch, awaited)) = self.load.next_batch() else {
            return Err(Fault("no memory was found", 0, 0));
        };
        if batch.is_empty() {
            return Ok(());
        }
        let count = batch.len() as u64;
        let sent = match awaited {
            0 | 1 => self.client.submit_batch(batch),
            _ => self.client.submit_and_wait(rt, batch, awaited),
        };
        match sent {
            Ok(_first) => self.load.sent()?,
            Err((SubmitError::Full, batch)) => return Ok(self.load.refused(batch)),
            Err(_) => return Err(Fault("a batch was refused that should fit", 0, 0)),
        }
        self.counts.submitted = self.counts.submitted.saturating_add(count);
        if awaited == 1 {
            let completion = self.client.wait(rt);
            self.take(completion)?;
        }
        Ok(())
    }

    /// Hands a completion to the load.
    fn take(&mut self, completion: Completion) -> Result<(), Fault>
        ensures { self.new.client ≡ self.old.client }
    {
        self.counts.taken = self.counts.taken.saturating_add(1);
        self.load.take(completion)
    }
}

/// Ends the load for this reason.
fn refuse(fault: Fault) -> Result<()> {
    bail!("{fault}")
}
