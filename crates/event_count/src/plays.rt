//! What each kind of step tells its seat.
ghost use Rattle.event_count.specs.{entered, read, asked, left, looked, counted_one, with_waiter, new_waiter, with_notifier, new_notifier};

use crate::view::View;
use atomic_table::{Play, Split};

pub(crate) struct Enter;

impl Play<u8, View> for Enter {
    ghost then = { entered };
}

pub(crate) struct ReadCount;

impl Play<u8, View> for ReadCount {
    ghost then = { read };
}

pub(crate) struct AskCount;

impl Play<u8, View> for AskCount {
    ghost then = { asked };
}

pub(crate) struct Leave;

impl Play<u8, View> for Leave {
    ghost then = { left };
}

pub(crate) struct LookInside;

impl Play<u8, View> for LookInside {
    ghost then = { looked };
}

pub(crate) struct CountOne;

impl Play<u8, View> for CountOne {
    ghost then = { counted_one };
}

pub(crate) struct CutWaiter;

impl Split<View> for CutWaiter {
    ghost left = { with_waiter };

    ghost right = { new_waiter };
}

pub(crate) struct CutNotifier;

impl Split<View> for CutNotifier {
    ghost left = { with_notifier };

    ghost right = { new_notifier };
}
