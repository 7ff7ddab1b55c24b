//! What each kind of step tells its seat.
ghost use Rattle.bell.specs.{stored, looked, armed, read, took_back, asked, with_ringer, new_ringer};

use crate::view::View;
use atomic_table::{Play, Split};

pub(crate) struct StoreTail;

impl Play<u8, View> for StoreTail {
    ghost then = { stored };
}

pub(crate) struct ClearBit;

impl Play<u8, View> for ClearBit {
    ghost then = { looked };
}

pub(crate) struct SetBit;

impl Play<u8, View> for SetBit {
    ghost then = { armed };
}

pub(crate) struct LoadTail;

impl Play<u8, View> for LoadTail {
    ghost then = { read };
}

pub(crate) struct TakeBack;

impl Play<u8, View> for TakeBack {
    ghost then = { took_back };
}

pub(crate) struct AskBit;

impl Play<u8, View> for AskBit {
    ghost then = { asked };
}

pub(crate) struct CutRinger;

impl Split<View> for CutRinger {
    ghost left = { with_ringer };

    ghost right = { new_ringer };
}
