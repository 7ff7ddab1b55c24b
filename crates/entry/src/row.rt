//! The columns of the table of opcodes: of each operation, and back.
ghost use Rattle.std.specs.Prelude.{◌≡◌, ◌↔◌, IsTrue, ◌&&◌, ◌==◌, bit_and};
ghost use Rattle.entry.specs.Table.{allowed_flags, fits_op, is_valid, place, row as table_row};

use crate::op::{Offset, Op};
use crate::{by_flag, by_opcode};

/// The columns of the table of opcodes: the fields by which operations differ. All are as struct io_uring_sqe has
/// them, `word` being the opcode's own flags.
#[derive(Clone, Copy, PartialEq, Eq, Debug)]
pub struct Fields {
    pub opcode: u8,
    pub fd: i32,
    pub off: u64,
    pub addr: u64,
    pub len: u32,
    pub word: u32,
    pub splice_fd_in: i32,
}

/// The largest number of ticks, and the largest `len`.
pub const LARGEST: u32 = 0x7fff_ffff;

/// The most completions that a TIMEOUT may count.
pub const MOST_COMPLETIONS: u32 = 1023;

/// The events that a POLL_ADD may ask for: POLLIN, POLLOUT, POLLERR and POLLHUP of poll(2).
pub const POLL_EVENTS: u32 = 1 | 4 | 8 | 16;

/// The bit ETIME_SUCCESS of a TIMEOUT's flags word.
const ETIME_SUCCESS: u32 = 32;

/// The bit IORING_ASYNC_CANCEL_ALL of an ASYNC_CANCEL's flags word.
pub const CANCEL_ALL: u32 = 1;

/// The opcode that an Invalid entry is written with.
const INVALID: u8 = 255;

macro_rules! row_of {
    (($op:expr) $($text:literal $name:ident { $($field:ident),* } = $code:literal: [$($fd:tt)*] [$($off:tt)*] [$($addr:tt)*] [$($len:tt)*] [$($word:tt)*] [$($splice_fd_in:tt)*] $flags:tt $fails:tt;)*) => {
        match $op {
            $(Op::$name { $($field),* } => Fields {
                opcode: $code,
                fd: column_of!($($fd)*),
                off: column_of!($($off)*),
                addr: column_of!($($addr)*),
                len: column_of!($($len)*),
                word: column_of!($($word)*),
                splice_fd_in: column_of!($($splice_fd_in)*),
            },)*
            Op::Invalid => Fields { opcode: INVALID, fd: 0, off: 0, addr: 0, len: 0, word: 0, splice_fd_in: 0 },
        }
    };
}

macro_rules! column_of {
    (none) => { -1 };
    (zero) => { 0 };
    (one) => { 1 };
    (current) => { u64::MAX };
    (place $offset:ident) => { $offset.number() };
    (ticks $ticks:ident) => { u64::from($ticks) };
    (completions $count:ident) => { u64::from($count) };
    (etime $success:ident) => { if $success { ETIME_SUCCESS } else { 0 } };
    (all $all:ident) => { if $all { CANCEL_ALL } else { 0 } };
    ($kind:ident $field:ident) => { $field };
}

macro_rules! op_at {
    (($row:expr) $($text:literal $name:ident { $($field:ident),* } = $code:literal: [$($fd:tt)*] [$($off:tt)*] [$($addr:tt)*] [$($len:tt)*] [$($word:tt)*] [$($splice_fd_in:tt)*] $flags:tt $fails:tt;)*) => {
        match $row.opcode {
            $($code => {
                field_at!($row.fd, $($fd)*);
                field_at!($row.off, $($off)*);
                field_at!($row.addr, $($addr)*);
                field_at!($row.len, $($len)*);
                field_at!($row.word, $($word)*);
                field_at!($row.splice_fd_in, $($splice_fd_in)*);
                Op::$name { $($field),* }
            })*
            _ => Op::Invalid,
        }
    };
}

macro_rules! field_at {
    ($from:expr, $fixed:ident) => {};
    ($from:expr, place $offset:ident) => { let $offset = if $from == 0 { Offset::Zero } else { Offset::Current }; };
    ($from:expr, ticks $ticks:ident) => { let $ticks = ($from % 0x8000_0000) as u32; };
    ($from:expr, completions $count:ident) => { let $count = ($from % 0x400) as u32; };
    ($from:expr, etime $success:ident) => { let $success = $from != 0; };
    ($from:expr, all $all:ident) => { let $all = $from != 0; };
    ($from:expr, $kind:ident $field:ident) => { let $field = $from; };
}

macro_rules! fits_row {
    (($op:expr) $($text:literal $name:ident { $($field:ident),* } = $code:literal: [$($fd:tt)*] [$($off:tt)*] [$($addr:tt)*] [$($len:tt)*] [$($word:tt)*] $splice_fd_in:tt $flags:tt $fails:tt;)*) => {
        match $op {
            $(Op::$name { $($field),* } => fits_column!($($off)*) && fits_column!($($addr)*) && fits_column!($($len)*) && fits_column!($($word)*),)*
            Op::Invalid => true,
        }
    };
}

macro_rules! fits_column {
    (ticks $ticks:ident) => { $ticks <= LARGEST };
    (completions $count:ident) => { $count <= MOST_COMPLETIONS };
    (count $len:ident) => { $len <= LARGEST };
    (mask $mask:ident) => { $mask & POLL_EVENTS == $mask };
    ($($other:tt)*) => { true };
}

macro_rules! flags_of {
    (($op:expr) $($text:literal $name:ident { $($field:ident),* } = $code:literal: $fd:tt $off:tt $addr:tt $len:tt $word:tt $splice_fd_in:tt [$flags:ident] $fails:tt;)*) => {
        match $op {
            $(Op::$name { .. } => flags_column!($flags),)*
            Op::Invalid => flags_column!(no_drain),
        }
    };
}

macro_rules! flags_column {
    (drain) => { by_flag!(all_flags!()) };
    (no_drain) => { by_flag!(link_flags!()) };
}

macro_rules! all_flags {
    (() $($flag:ident = $value:literal: $text:literal $kind:tt;)*) => { 0 $(| $value)* };
}

macro_rules! link_flags {
    (() $($flag:ident = $value:literal: $text:literal $kind:tt;)*) => { 0 $(| link_flag!($value, $kind))* };
}

macro_rules! link_flag {
    ($value:literal, [link]) => { $value };
    ($value:literal, [drain]) => { 0 };
}

impl Offset {
    /// The field `off` of an entry that begins there.
    pub fn number(self) -> u64
        ensures { result ≡ place self }
    {
        match self {
            Offset::Zero => 0,
            Offset::Current => u64::MAX,
        }
    }
}

impl Op {
    /// The operation's row of the table of opcodes, with its values in the free places.
    #[inline(always)]
    pub fn row(self) -> Fields
        ensures { result ≡ table_row self }
    {
        by_opcode!(row_of!(self))
    }

    /// Whether the values are those that the row allows.
    #[inline(always)]
    pub fn fits(self) -> bool
        ensures { result ≡ fits_op self }
    {
        by_opcode!(fits_row!(self))
    }

    /// The bits that the flags byte of such an entry may have.
    #[inline(always)]
    pub fn allowed_flags(self) -> u8
        ensures { result ≡ allowed_flags self }
    {
        by_opcode!(flags_of!(self))
    }

    /// Whether an entry of this operation may have this row and these flags.
    #[inline(always)]
    pub fn is_written_as(self, row: &Fields, flags: u8) -> bool
        ensures { IsTrue result ↔ (IsTrue (fits_op self) × (bit_and flags (allowed_flags self) ≡ flags) × (table_row self ≡ row.now)) }
    {
        self.fits() && flags & self.allowed_flags() == flags && self.row() == *row
    }
}

impl Fields {
    /// The operation of this opcode with the values that stand in its free places: the only one whose row this may be.
    /// Invalid where no row of the table has this opcode.
    #[inline(always)]
    pub fn candidate(&self) -> Op
        ensures only { (op : Op) → IsTrue (fits_op op) → table_row op ≡ self.now → result ≡ op }
        ensures opcode { IsTrue (is_valid result) → (table_row result).opcode ≡ self.now.opcode }
        ensures none { result ≡ Op.Invalid → (op : Op) → IsTrue (is_valid op) → (table_row op).opcode ≡ self.now.opcode → ⊥ }
    {
        by_opcode!(op_at!(self))
    }
}
