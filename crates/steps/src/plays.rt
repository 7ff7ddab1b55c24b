//! What each kind of step tells its seat, as the table takes it.
ghost use Rattle.claim.specs.declared.tag.Tag.TheVariants.{Empty, Held, Ready, Running, Armed, Done};
ghost use Rattle.steps.specs.declared.line.Laid.TheVariants.{NoRequest, Behind, Alone};
ghost use Rattle.steps.specs.declared.view.Role.TheVariants.{Idle, Leaving};
ghost use Rattle.steps.specs.{looked, tried, tried_idle, sure, released, severed, armed_for, expired, counted, settled, fired_at, fired_late, taken, missed, clock_set, began, submitted, replied_with, parked, reaps, noticed, opened, noted_more, emptied, pipe_taken, pipe_returned, pipe_left, pipe_left_first, pipe_left_last, without_next, without_one, next_submitter, idle_one, messenger, hearing, spent_view};

use crate::slot::Thing;
use crate::view::View;
use atomic_table::{Join, Play, Split};

pub(crate) struct Look;

impl Play<Option<Thing>, View> for Look {
    ghost then = { looked };
}

pub(crate) struct LookAtNote;

impl Play<Option<Thing>, View> for LookAtNote {
    ghost then = { noticed };
}

pub(crate) struct Release;

impl Play<Option<Thing>, View> for Release {
    ghost then = { tried Held released };
}

pub(crate) struct Sever;

impl Play<Option<Thing>, View> for Sever {
    ghost then = { tried Held severed };
}

pub(crate) struct Tick;

impl Play<Option<Thing>, View> for Tick {
    ghost then = { clock_set };
}

pub(crate) struct Arm;

impl Play<Option<Thing>, View> for Arm {
    ghost then = { tried Held armed_for };
}

pub(crate) struct Expire;

impl Play<Option<Thing>, View> for Expire {
    ghost then = { tried Armed expired };
}

pub(crate) struct Count;

impl Play<Option<Thing>, View> for Count {
    ghost then = { tried Armed counted };
}

pub(crate) struct Fire;

impl Play<Option<Thing>, View> for Fire {
    ghost then = { tried_idle fired_at fired_late };
}

pub(crate) struct Settle;

impl Play<Option<Thing>, View> for Settle {
    ghost then = { tried Armed settled };
}

pub(crate) struct Take;

impl Play<Option<Thing>, View> for Take {
    ghost then = { tried_idle taken missed };
}

pub(crate) struct Begin;

impl Play<Option<Thing>, View> for Begin {
    ghost then = { tried Ready began };
}

pub(crate) struct Reply;

impl Play<Option<Thing>, View> for Reply {
    ghost then = { sure Running (replied_with (λ r. Idle)) };
}

pub(crate) struct ReplyWithPipe;

impl Play<Option<Thing>, View> for ReplyWithPipe {
    ghost then = { sure Running (replied_with Leaving) };
}

pub(crate) struct Park;

impl Play<Option<Thing>, View> for Park {
    ghost then = { sure Running parked };
}

pub(crate) struct Hold;

impl Play<Option<Thing>, View> for Hold {
    ghost then = { pipe_taken };
}

pub(crate) struct Free;

impl Play<Option<Thing>, View> for Free {
    ghost then = { pipe_returned NoRequest };
}

pub(crate) struct Lay;

impl Play<Option<Thing>, View> for Lay {
    ghost then = { pipe_returned Behind };
}

pub(crate) struct LayAlone;

impl Play<Option<Thing>, View> for LayAlone {
    ghost then = { pipe_returned Alone };
}

pub(crate) struct Leave;

impl Play<Option<Thing>, View> for Leave {
    ghost then = { pipe_left };
}

pub(crate) struct LeaveFirst;

impl Play<Option<Thing>, View> for LeaveFirst {
    ghost then = { pipe_left_first };
}

pub(crate) struct LeaveLast;

impl Play<Option<Thing>, View> for LeaveLast {
    ghost then = { pipe_left_last };
}

pub(crate) struct OpenCell;

impl Play<Option<Thing>, View> for OpenCell {
    ghost then = { opened };
}

pub(crate) struct Note;

impl Play<Option<Thing>, View> for Note {
    ghost then = { noted_more };
}

pub(crate) struct EmptyCell;

impl Play<Option<Thing>, View> for EmptyCell {
    ghost then = { emptied };
}

pub(crate) struct Submit;

impl Play<Option<Thing>, View> for Submit {
    ghost then = { sure Empty submitted };
}

pub(crate) struct Reap;

impl Play<Option<Thing>, View> for Reap {
    ghost then = { sure Done reaps };
}

pub(crate) struct CutSubmitter;

impl Split<View> for CutSubmitter {
    ghost left = { without_next };

    ghost right = { next_submitter };
}

pub(crate) struct CutWorker;

impl Split<View> for CutWorker {
    ghost left = { without_one };

    ghost right = { idle_one };
}

pub(crate) struct CutMessenger;

impl Split<View> for CutMessenger {
    ghost left = { λ v. v };

    ghost right = { messenger };
}

pub(crate) struct Hear;

impl Join<View> for Hear {
    ghost both = { hearing };

    ghost spent = { spent_view };
}
