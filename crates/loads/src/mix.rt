//! The mixed load of one client: batches of requests of all kinds, and what it checks of each request.
use crate::draws::{Draws, LINKS, VALUES};
use crate::flow::{Flow, buffer_of};
use crate::load::{Batch, Fault, Load};
use crate::replies::may_reply;
use crate::setup::{Kind, Setup};
use anyhow::{Result, bail};
use board::Completion;
use entry::Sqe;
use prep::{cancel_all, nop, with_flags, with_user_data};
use std::alloc::{AllocError, Global};
use std::mem;

/// IOSQE_IO_DRAIN.
const DRAIN: u8 = 2;

/// For how many turns it waits after the first cancels, which don't take what a worker is just trying; then twice as long, and so on.
const PATIENCE: u64 = 64;

/// A request without a completion: its number and its entry, and the place at which the bytes of its buffer begin.
#[derive(Clone, Copy)]
struct Record {
    number: u64,
    sqe: Sqe,
    from: u64,
}

/// A client's load. It goes by spans, of up to half its ring's cells: a batch that ends by itself, with drains; batches of any kind;
/// and cancels of all that is left, until each request has its completion. A wild load has no spans, and drains anywhere.
#[derive(Drop)]
pub(crate) struct Mix {
    alloc: Global,
    is_wild: bool,
    draws: Draws,
    flow: Flow,
    /// By the number of a request modulo the cells: a cell has one request at a time.
    open: Vec<Option<Record>>,
    /// The batch at hand.
    drawn: Vec<Record>,
    span_end: u64,
    turns: u64,
    rest: u64,
    submitted: u64,
    taken: u64,
}

impl Mix {
    /// Adds some NOPs now and then, and gives how many. They surely end, since no drain holds them up.
    fn draw_nops(&mut self, batch: &mut Batch) -> Result<usize, AllocError> {
        let is_drain = |record: &Option<Record>| record.is_some_and(|it| it.sqe.drains());
        if self.draws.below(4) != 0 || self.open.iter().any(is_drain) {
            return Ok(0);
        }
        let count = self.draws.below(4);
        for _nop in 0..count {
            let sqe = with_user_data(nop(), self.draws.user_data());
            self.add(batch, sqe)?;
        }
        Ok(count as usize)
    }

    /// Adds entries at random: any, or such as end by themselves, with drains.
    fn draw(&mut self, batch: &mut Batch, is_quick: bool) -> Result<(), AllocError> {
        let mut link = 0;
        for _entry in 0..self.draws.below(8) + 1 {
            let sqe = self.entry(is_quick, link != 0);
            link = LINKS[self.draws.below(8) as usize];
            let may_drain = is_quick || (self.is_wild && self.draws.below(16) == 0);
            let is_drain = may_drain && self.draws.below(3) == 0;
            let flags = if is_drain { link | DRAIN } else { link };
            let sqe = with_user_data(with_flags(sqe, flags), self.draws.user_data());
            self.add(batch, sqe)?;
        }
        Ok(())
    }

    /// An entry, which comes after one with a link or not.
    fn entry(&mut self, is_quick: bool, is_linked: bool) -> Sqe {
        if is_linked && self.draws.below(3) == 0 {
            self.draws.link_timeout()
        } else if is_quick || self.draws.below(2) == 0 {
            self.draws.quick()
        } else {
            self.draws.slow(&self.flow)
        }
    }

    /// Adds an entry.
    fn add(&mut self, batch: &mut Batch, sqe: Sqe) -> Result<(), AllocError> {
        let from = self.flow.begin(sqe.op(), self.draws.number());
        let number = self.submitted.saturating_add(batch.len() as u64);
        self.drawn.push(Record { number, sqe, from })?;
        batch.push((sqe, buffer_of(self.alloc, sqe.op(), from)?))?;
        Ok(())
    }

    /// The place of a request among the open ones.
    fn place(&mut self, number: u64) -> Option<&mut Option<Record>> {
        let place = number.checked_rem(self.open.len() as u64)?;
        self.open.get_mut(place as usize)
    }

    /// Notes a completion. Its request had none before, and may have this one, with this buffer.
    fn check(&mut self, completion: &Completion, is_cut: bool) -> Result<(), Fault> {
        let (number, cqe) = (completion.req.k, completion.cqe);
        let record = self.place(number).and_then(|place| place.take());
        let Some(record) = record.filter(|record| record.number == number) else {
            return Err(Fault(
                "it was never submitted, or has two completions",
                number,
                cqe.res,
            ));
        };
        let (op, res, buffer) = (record.sqe.op(), cqe.res, completion.buffer.as_slice());
        if cqe.user_data != record.sqe.user_data() || !may_reply(op, res, is_cut) {
            return Err(Fault("it can't have this reply", number, res));
        }
        if !self.flow.is_right(op, record.from, res, buffer) {
            return Err(Fault("its buffer is wrong", number, res));
        }
        self.flow.finish(op, res);
        Ok(())
    }
}

impl Load for Mix {
    /// The load of the client of a ring of this many cells that has submitted nothing yet. One seed in four is that of a wild one.
    fn new(alloc: Global, ring: u16, setup: &Setup) -> Result<Mix, AllocError> {
        let Kind::Mixed { seed } = setup.kind else {
            return Err(AllocError);
        };
        Ok(Mix {
            alloc,
            is_wild: seed % 4 == 1,
            draws: Draws::new(seed.wrapping_add(u64::from(ring))),
            flow: Flow::new(ring),
            open: Vec::from_elem(alloc, None, setup.cells as usize)?,
            drawn: Vec::new(alloc),
            span_end: 0,
            turns: 0,
            rest: PATIENCE,
            submitted: 0,
            taken: 0,
        })
    }

    fn begin(&mut self, turns: u64) {
        self.turns = turns;
    }

    /// Counts a turn. Whether the round is over.
    fn is_over(&mut self) -> bool {
        self.turns = self.turns.saturating_sub(1);
        self.turns == 0
    }

    fn next_batch(&mut self) -> Result<(Batch, usize), AllocError> {
        let (mut batch, mut awaited) = (Vec::new(self.alloc), 0);
        if self.is_wild || self.submitted < self.span_end {
            awaited = self.draw_nops(&mut batch)?;
            self.draw(&mut batch, false)?;
        } else if self.submitted == self.taken {
            let half = (self.open.len() / 2).min(1_024) as u32;
            let span = u64::from(self.draws.below(half + 1));
            self.span_end = self.submitted.saturating_add(span);
            self.rest = PATIENCE;
            self.draw(&mut batch, true)?;
        } else {
            if self.rest.is_power_of_two() {
                for value in 0..VALUES {
                    self.add(&mut batch, cancel_all(u64::from(value)))?;
                }
            }
            self.rest = self.rest.saturating_add(1);
        }
        Ok((batch, awaited))
    }

    fn sent(&mut self) -> Result<(), Fault> {
        for record in mem::replace(&mut self.drawn, Vec::new(self.alloc)) {
            match self.place(record.number) {
                Some(slot) if slot.is_none() => *slot = Some(record),
                _ => return Err(Fault("its cell is in use", record.number, 0)),
            }
            self.submitted = self.submitted.saturating_add(1);
        }
        Ok(())
    }

    fn refused(&mut self, _batch: Batch) {
        for record in &self.drawn {
            self.flow.finish(record.sqe.op(), 0);
        }
        self.drawn.clear();
    }

    fn take(&mut self, completion: Completion) -> Result<(), Fault> {
        self.taken = self.taken.saturating_add(1);
        self.check(&completion, false)
    }

    fn report(&mut self, completion: &Completion, is_cut: bool) -> Result<()> {
        match self.check(completion, is_cut) {
            Ok(()) => Ok(()),
            Err(fault) => bail!("{fault}"),
        }
    }
}
