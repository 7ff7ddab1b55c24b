//! The loads that are measured, unit by unit: a given number of units is kept in flight.
use crate::flow::{are_bytes, buffer_of};
use crate::load::{Batch, Fault, Load};
use crate::replies::LATE;
use crate::setup::{Kind, Setup};
use anyhow::{Result, bail};
use board::Completion;
use entry::Sqe;
use prep::{cancel, nop, read, timeout, timeout_remove, with_flags, with_user_data, write};
use std::alloc::{AllocError, Global};

/// IOSQE_IO_LINK.
const LINK: u8 = 4;

/// How many bytes go through a pipe of a pair's own at once.
const BYTES: u32 = 8;

/// The user_data of the READs that are left to wait.
const LEFT: u64 = u64::MAX;

/// A client's load: the unit that comes next, the first of its round, and where that ends; how many requests have no completion; and a
/// batch that found no room, or wasn't sent yet.
#[derive(Drop)]
pub(crate) struct Units {
    alloc: Global,
    ring: u16,
    setup: Setup,
    next: u64,
    first: u64,
    end: u64,
    open: u64,
    unsent: Option<Batch>,
}

/// This many READs that are left to wait, on pipes that nothing is written to.
fn reads_left(alloc: Global, count: u32) -> Result<Batch, AllocError> {
    let mut batch = Vec::new(alloc);
    for number in 0..count {
        let pipe = 2 + number % 62;
        let sqe = with_user_data(read(2 * pipe as i32, 1, 0), LEFT);
        batch.push((sqe, buffer_of(alloc, sqe.op(), 0)?))?;
    }
    Ok(batch)
}

impl Units {
    /// The entries of the next unit, which has one or both.
    fn entries(&self) -> (Option<Sqe>, Option<Sqe>) {
        let (target, pipe) = (self.next.wrapping_mul(2), 2 * (self.next % 64) as i32);
        let is_first = self.next == self.first;
        let is_last = self.end <= self.next.saturating_add(1);
        match (self.setup.kind, self.ring) {
            (Kind::Pair, _) => {
                let linked = with_flags(write(pipe + 1, BYTES, 0), LINK);
                (Some(linked), Some(read(pipe, BYTES, 0)))
            }
            (Kind::ReadCancel, _) => (Some(read(0, BYTES, 0)), Some(cancel(target))),
            (Kind::TimeoutRemove, _) => (Some(timeout(LATE, 0)), Some(timeout_remove(target))),
            (Kind::Byte, 0) => (Some(write(1, 1, 0)), None),
            (Kind::Byte, _) => (Some(read(0, 1, 0)), None),
            (Kind::Echo, 0) => (Some(write(1, 1, 0)), Some(read(2, 1, 0))),
            (Kind::Echo, _) if is_first => (None, Some(read(0, 1, 0))),
            (Kind::Echo, _) if is_last => (Some(write(3, 1, 0)), None),
            (Kind::Echo, _) => (Some(write(3, 1, 0)), Some(read(0, 1, 0))),
            _ => (Some(nop()), None),
        }
    }

    /// Adds the entries of the next unit. A NOP needs no buffer, so it is added at once.
    fn add_unit(&mut self, batch: &mut Batch) -> Result<(), AllocError> {
        if self.setup.kind == Kind::Nop {
            let entry = with_user_data(nop(), self.next.wrapping_mul(2));
            batch.push((entry, Vec::new(self.alloc)))?;
            self.open = self.open.saturating_add(1);
            return Ok(());
        }
        let (first, second) = self.entries();
        self.add(batch, first, 0)?;
        self.add(batch, second, 1)
    }

    /// Adds the first (0) or second (1) entry of the next unit, if it has one. Its user_data tells its place, and which it is.
    fn add(&mut self, batch: &mut Batch, sqe: Option<Sqe>, which: u64) -> Result<(), AllocError> {
        let Some(sqe) = sqe else {
            return Ok(());
        };
        let place = match (self.setup.kind, self.ring, which) {
            (Kind::Pair, _, _) => self.next % 64,
            (Kind::Echo, 1, 0) => self.next.wrapping_sub(1),
            _ => self.next,
        };
        let sqe = with_user_data(sqe, place.wrapping_mul(2) | which);
        batch.push((sqe, buffer_of(self.alloc, sqe.op(), place)?))?;
        self.open = self.open.saturating_add(1);
        Ok(())
    }
}

impl Load for Units {
    fn new(alloc: Global, ring: u16, setup: &Setup) -> Result<Units, AllocError> {
        Ok(Units {
            alloc,
            ring,
            setup: *setup,
            next: 0,
            first: 0,
            end: 0,
            open: 0,
            unsent: Some(reads_left(alloc, if ring == 1 { setup.reads } else { 0 })?),
        })
    }

    /// Begins a round of this many units, which the clients at work share, but for those of a byte, in which both take part. Where bytes are
    /// given back, the last unit of a round has no READ, and is the first of the next one, which has no WRITE.
    fn begin(&mut self, count: u64) {
        let more = u64::from(self.setup.kind == Kind::Echo && self.ring == 1);
        let count = match self.setup.kind {
            Kind::Nop if self.setup.clients == 2 => count / 2,
            _ => count,
        };
        self.first = self.next.saturating_sub(more);
        self.next = self.first;
        if self.ring < self.setup.clients {
            self.end = self.first.saturating_add(count).saturating_add(more);
        }
    }

    /// Whether all units of the round were begun, and each request was taken that isn't left to wait.
    fn is_over(&mut self) -> bool {
        self.end <= self.next && self.open == 0 && self.unsent.is_none()
    }

    /// The batch that wasn't sent, or the entries of the units that may be in flight too. All completions of an echo are awaited.
    fn next_batch(&mut self) -> Result<(Batch, usize), AllocError> {
        if let Some(batch) = self.unsent.take() {
            return Ok((batch, 0));
        }
        let is_single = self.setup.kind == Kind::Nop || self.setup.kind == Kind::Byte;
        let entries = if is_single { 1 } else { 2 };
        let in_flight = self.open.div_ceil(entries);
        let room = u64::from(self.setup.depth).saturating_sub(in_flight);
        let room = room.min(self.end.saturating_sub(self.next));
        let mut batch = Vec::with_capacity(self.alloc, (entries * room.min(1_024)) as usize)?;
        for _unit in 0..room {
            self.add_unit(&mut batch)?;
            self.next = self.next.saturating_add(1);
        }
        let is_echo = self.setup.kind == Kind::Echo;
        Ok((batch, if is_echo { self.open as usize } else { 0 }))
    }

    /// Keeps a batch that found no room.
    fn refused(&mut self, batch: Batch) {
        self.unsent = Some(batch);
    }

    /// Notes a completion, which must have the reply that its unit is for, and its bytes.
    fn take(&mut self, completion: Completion) -> Result<(), Fault> {
        let (number, cqe) = (completion.req.k, completion.cqe);
        let is_first = cqe.user_data % 2 == 0;
        let res = match self.setup.kind {
            Kind::Pair => BYTES as i32,
            Kind::ReadCancel | Kind::TimeoutRemove if is_first => -125, // ECANCELED
            Kind::Byte | Kind::Echo => 1,
            _ => 0,
        };
        if cqe.res != res || cqe.user_data == LEFT {
            return Err(Fault("it can't have this reply", number, cqe.res));
        }
        if 0 < res && !are_bytes(&completion.buffer, cqe.user_data / 2) {
            return Err(Fault("its buffer is wrong", number, res));
        }
        self.open = self.open.saturating_sub(1);
        Ok(())
    }

    /// Notes a line of the report, which only a READ has that was left to wait.
    fn report(&mut self, completion: &Completion, is_cut: bool) -> Result<()> {
        if completion.cqe.user_data != LEFT || !is_cut {
            bail!("request {} was left over", completion.req.k);
        }
        Ok(())
    }
}
