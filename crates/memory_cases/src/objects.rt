//! The one-thread ring, event by event.
use crate::lines::{Call, Lines, Shown};
use entry::Sqe;
use history::{Bytes, Event, Req};
use model::Object;
use prep::{nop, read, timeout, write};
use std::alloc::Global;

/// A request of ring 0.
pub(crate) fn req(k: u64) -> Req {
    Req { ring: 0, k }
}

/// The request `k` is handed in, with this buffer, as a batch of its own.
fn submit(alloc: Global, k: u64, sqe: Sqe, buffer: &[u8]) -> Option<Event> {
    Some(Event::Submit {
        req: req(k),
        sqe,
        bytes: Bytes::copy(alloc, buffer).ok()?,
        last: true,
    })
}

/// The request `k` is answered, with these data.
fn reply(alloc: Global, k: u64, res: i32, data: &[u8]) -> Option<Event> {
    Some(Event::Reply {
        req: req(k),
        res,
        data: Bytes::copy(alloc, data).ok()?,
    })
}

/// Each event of a walk, in order, of which some take memory. None after the last.
fn event_at(alloc: Global, step: u8) -> Option<Event> {
    match step {
        0 => submit(alloc, 0, write(1, 3, 0), b"abc"),
        1 => Some(Event::Begin(req(0))),
        2 => reply(alloc, 0, 3, b""),
        3 => submit(alloc, 1, read(0, 2, 0), b".."),
        4 => Some(Event::Begin(req(1))),
        5 => reply(alloc, 1, 2, b"ab"),
        6 => submit(alloc, 2, timeout(5, 0), b""),
        7 => Some(Event::Arm {
            req: req(2),
            deadline: 5,
        }),
        8 => submit(alloc, 3, nop(), b""),
        9 => Some(Event::Reap(req(0))),
        10 => Some(Event::Tick(5)),
        11 => Some(Event::Expire(req(2))),
        12 => Some(Event::Shut),
        13 => Some(Event::Cut(req(3))),
        _ => None,
    }
}

/// A ring with a pipe of 4 bytes, and the event that it is to carry out.
#[derive(Drop)]
struct Walk {
    object: Object,
    event: Option<Event>,
}

impl Call<()> for Walk {
    fn make(&mut self, _rt: &(), _alloc: Global, gave: &mut Shown) -> bool {
        match &self.event {
            Some(event) => gave.got(self.object.apply(event)).is_some(),
            None => true,
        }
    }

    fn show(&self, shown: &mut Shown) {
        shown.text(" replies");
        for k in 0..4 {
            match self.object.reply_of(req(k)) {
                Some(res) => shown.reply(res),
                None => shown.text(" none"),
            }
        }
    }
}

/// Each event of the walk.
pub(crate) fn try_objects(lines: &mut Lines) {
    let Ok(object) = Object::new(lines.alloc, 1, &[4]) else {
        return;
    };
    let mut walk = Walk {
        object,
        event: None,
    };
    for step in 0..14u8 {
        walk.event = event_at(lines.alloc, step);
        lines.try_call(&(), "Object::apply", &mut walk);
    }
}
