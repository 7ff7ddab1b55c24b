//! The one-thread ring, event by event.
use crate::entries::{entry_of, event_of};
use crate::printed::{Digits, Named, Printed, Slip, debugged, said, shown};
use crate::words::Words;
use history::{Bytes, Event, Req};
use limits::TICK;
use model::{Memory, Object, Packing, Refused};
use prep::with_user_data;
use std::alloc::{AllocError, Global};

/// The most pipes of a ring.
const PIPES: u32 = 16;

/// The rings of the last line `rings`, as far as the lines after it have come.
#[derive(Drop)]
pub struct Walk {
    object: Object,
    /// All requests in the order of submission.
    requests: Vec<Req>,
}

impl From<Memory> for Slip {
    fn from(_error: Memory) -> Slip {
        Slip::Memory
    }
}

impl Walk {
    /// This many rings, and a pipe for each capacity after them.
    pub fn new(words: &mut Words<'_>) -> Result<Walk, Slip> {
        let (alloc, rings) = (words.alloc, words.number());
        let mut capacities = Vec::new(alloc);
        for _ in 0..PIPES {
            if words.rest.is_some() {
                capacities.push(words.number())?;
            }
        }
        words.end()?;
        Ok(Walk {
            object: Object::new(alloc, rings, &capacities)?,
            requests: Vec::new(alloc),
        })
    }

    /// What is printed of a line by its items, between which a comma and a space stand, or of its number.
    pub fn printed(&mut self, kind: &str, words: &mut Words<'_>) -> Printed {
        let alloc = words.alloc;
        match kind {
            "submit" | "part" => {
                let ring = words.number();
                self.submit(alloc, ring, words.left(), kind == "submit")
            }
            "goes" => self.play(alloc, words.left(), true),
            "refuses" => self.play(alloc, words.left(), false),
            "tells" => self.rows(alloc, words.left()),
            "ends" => self.end(alloc),
            "nops" => self.nops(alloc, words.number()),
            "state" => self.state(words),
            "answer" => self.answer(alloc, words.req()),
            "clock" => shown(alloc, &self.object.clock()),
            "submitted" => shown(alloc, &self.object.submitted(words.number())),
            "due" => debugged(alloc, &self.object.due_now(words.req())),
            "deadline" => debugged(alloc, &self.object.deadline_of(words.req())),
            "was-shut" => shown(alloc, &self.object.was_shut()),
            _ => Err(Slip::BadLine),
        }
    }

    /// What becomes of an event that has to come next.
    fn step(&mut self, event: &Event) -> &'static str {
        if self.object.apply(event).is_ok() {
            "ok"
        } else {
            "refused"
        }
    }

    /// What becomes of an event that may not come next: it has to be refused, and to change no reply and no data.
    fn miss(&mut self, event: &Event) -> Result<&'static str, Slip> {
        let before = self.object.try_clone()?;
        if self.object.apply(event) != Err(Refused::NotAllowed) {
            return Ok("accepted");
        }
        for req in self.requests.iter() {
            if self.object.reply_of(*req) != before.reply_of(*req)
                || self.object.data_of(*req) != before.data_of(*req)
            {
                return Ok("changed");
            }
        }
        Ok("ok")
    }

    /// Each event comes next, or none of them may. Tells of the first that goes otherwise.
    fn play(&mut self, alloc: Global, items: &str, goes: bool) -> Printed {
        for item in items.split(", ") {
            let mut words = Words::of(alloc, item);
            let event = event_of(&mut words)?;
            words.end()?;
            let printed = if goes {
                self.step(&event)
            } else {
                self.miss(&event)?
            };
            if printed != "ok" {
                return Ok(format!(in alloc; "{item}: {printed}")?);
            }
        }
        said(alloc, "ok")
    }

    /// Hands entries in, of which the last may end the batch. An entry with user_data 0 gets its number in the walk, from 1.
    fn submit(&mut self, alloc: Global, ring: u16, items: &str, is_whole: bool) -> Printed {
        let count = items.split(", ").count();
        for (place, item) in items.split(", ").enumerate() {
            let mut words = Words::of(alloc, item);
            let (mut sqe, buffer) = entry_of(&mut words)?;
            words.end()?;
            if sqe.user_data() == 0 {
                sqe = with_user_data(sqe, (self.requests.len() as u64).wrapping_add(1));
            }
            let req = Req {
                ring,
                k: self.object.submitted(ring),
            };
            let event = Event::Submit {
                req,
                sqe,
                bytes: Bytes::new(buffer),
                last: is_whole && place == count.wrapping_sub(1),
            };
            if self.step(&event) != "ok" {
                return Ok(format!(in alloc; "{item}: refused")?);
            }
            self.requests.push(req)?;
        }
        said(alloc, "ok")
    }

    /// The table's rows of these requests.
    fn rows(&self, alloc: Global, items: &str) -> Printed {
        let mut printed = String::new(alloc);
        for item in items.split(", ") {
            let mut words = Words::of(alloc, item);
            let req = words.req();
            words.end()?;
            self.push_row(alloc, &mut printed, req)?;
        }
        Ok(printed)
    }

    /// Adds the table's row of a request.
    fn push_row(&self, alloc: Global, printed: &mut String, req: Req) -> Result<(), Slip> {
        let name = Named(req);
        if !printed.is_empty() {
            printed.push_str(", ")?;
        }
        match (self.object.reply_of(req), self.object.data_of(req)) {
            (Some(res), Some(data)) => {
                let data = Digits(data);
                printed.push_str(format!(in alloc; "{name} {res} {data}")?.as_str())?;
            }
            _ => printed.push_str(format!(in alloc; "{name} open")?.as_str())?,
        }
        Ok(())
    }

    /// The end: each completion is taken, once; then Shut, and a Cut, once, for each request without an answer. Tells the whole
    /// table, in the order of submission.
    fn end(&mut self, alloc: Global) -> Printed {
        if !self.end_each(false)?
            || self.step(&Event::Shut) != "ok"
            || self.miss(&Event::Shut)? != "ok"
            || self.miss(&Event::Tick(TICK))? != "ok"
            || !self.end_each(true)?
        {
            return said(alloc, "another end");
        }
        let mut printed = String::new(alloc);
        for req in self.requests.iter() {
            self.push_row(alloc, &mut printed, *req)?;
        }
        Ok(printed)
    }

    /// Reaps each answered request, once, or cuts each other one, once.
    fn end_each(&mut self, cuts: bool) -> Result<bool, Slip> {
        let mut is_right = true;
        for i in 0..self.requests.len() {
            let Some(req) = self.requests.get(i).copied() else {
                continue;
            };
            let event = if cuts {
                Event::Cut(req)
            } else {
                Event::Reap(req)
            };
            if self.object.reply_of(req).is_none() == cuts {
                is_right &= self.step(&event) == "ok";
            }
            is_right &= self.miss(&event)? == "ok";
        }
        Ok(is_right)
    }

    /// This many NOPs, one after another.
    fn nops(&mut self, alloc: Global, count: u64) -> Printed {
        for k in 0..count {
            let items = format!(in alloc;
                "submit 0.{k} nop, begin 0.{k}, reply 0.{k} 0, reap 0.{k}"
            )?;
            let printed = self.play(alloc, items.as_str(), true)?;
            if printed.as_str() != "ok" {
                return Ok(printed);
            }
        }
        said(alloc, "ok")
    }

    /// The reply and the data that a worker may give to a request now.
    fn answer(&self, alloc: Global, req: Req) -> Printed {
        match self.object.answer_now(req)? {
            Some((res, bytes)) => {
                let data = Digits(bytes.as_slice());
                Ok(format!(in alloc; "{res} {data}")?)
            }
            None => said(alloc, "none"),
        }
    }

    /// The words of the state, after those of the line.
    fn state(&self, words: &mut Words<'_>) -> Printed {
        let alloc = words.alloc;
        let mut state = Packing::new(Vec::new(alloc));
        if words.rest.is_some() {
            state.push(words.number())?;
        }
        self.object.push_state(&mut state)?;
        let all = unpacked(alloc, &state.into_bytes())?;
        debugged(alloc, &all)
    }
}

/// The words of these bytes, which have seven bits of one each, the low ones first, and 128 more in all but a word's last.
fn unpacked(alloc: Global, bytes: &[u8]) -> Result<Vec<u64>, AllocError> {
    let mut words = Vec::new(alloc);
    let (mut word, mut place): (u64, u32) = (0, 0);
    for byte in bytes {
        word |= u64::from(*byte % 128).wrapping_shl(place);
        if *byte < 128 {
            words.push(word)?;
            word = 0;
            place = 0;
        } else {
            place = place.saturating_add(7);
        }
    }
    Ok(words)
}
