//! A submission queue entry.
ghost use Rattle.std.specs.Prelude.{◌≡◌, IsTrue, bit_and};
ghost use Rattle.entry.specs.Entry.{Entry, fails as is_failure};
ghost use Rattle.entry.specs.{bits_of, fits, is_valid, row as table_row, Says, layout};

use crate::by_opcode;
use crate::flags::SqeFlags;
use crate::op::Op;
use crate::row::Fields;
use bitflags::Flags;
use std::marker::Model;

/// A submission queue entry that fits its row of the table of opcodes.
#[derive(Clone, Copy, PartialEq, Eq, Debug)]
pub struct Sqe {
    user_data: u64,
    flags: SqeFlags,
    op: Op,
}

impl Model for Sqe {
    ghost use Rattle.std.specs.Prelude.{IsTrue};
    ghost use Rattle.entry.specs.Entry.{Entry};
    ghost use Rattle.entry.specs.Table.{fits};

    ghost Value = { Entry };

    ghost view = { λ s. record { user_data = s.user_data; flags = s.flags.0; op = s.op } };

    ghost invariant = { λ s. IsTrue (fits (record { user_data = s.user_data; flags = s.flags.0; op = s.op })) };

    ghost inverse = { λ e. record { user_data = e.user_data; flags = record { 0 = e.flags }; op = e.op } };
}

macro_rules! is_failure {
    (($op:expr, $res:expr) $($text:literal $name:ident { $($field:ident),* } = $code:literal: $fd:tt $off:tt $addr:tt $len:tt $word:tt $splice_fd_in:tt $flags:tt [$($fails:tt)*];)*) => {
        match $op {
            $(Op::$name { $($field),* } => fails_column!($res, $($fails)*),)*
            Op::Invalid => fails_column!($res, negative),
        }
    };
}

macro_rules! fails_column {
    ($res:expr, never) => { false };
    ($res:expr, negative) => { $res < 0 };
    ($res:expr, short $len:ident) => { i64::from($res) < i64::from($len) };
    ($res:expr, unless_etime $success:ident) => { $res < 0 && !($success && $res == ETIME) };
}

/// The reply of a timer that ran out.
const ETIME: i32 = -62;

/// Whether the reply is a failure, which a soft link doesn't survive: an error, or a READ, WRITE or SPLICE of fewer bytes than
/// asked. No reply to a LINK_TIMEOUT is one, nor -62 to a TIMEOUT with ETIME_SUCCESS.
pub fn fails(sqe: &Sqe, res: i32) -> bool
    ensures { result ≡ is_failure sqe.now res }
{
    by_opcode!(is_failure!(sqe.op, res))
}

impl Sqe {
    /// The number that the completion carries back.
    pub fn user_data(&self) -> u64
        ensures { result ≡ self.now.user_data }
    {
        self.user_data
    }

    /// The supported bits of the flags byte.
    pub fn flags(&self) -> SqeFlags
        ensures { bits_of result ≡ self.now.flags }
    {
        self.flags
    }

    /// What the entry asks for.
    pub fn op(&self) -> Op
        ensures { result ≡ self.now.op }
    {
        self.op
    }

    /// The entry's row of the table of opcodes, with its values.
    pub fn row(&self) -> Fields
        ensures row { result ≡ table_row self.now.op }
        ensures fits { IsTrue (fits self.now) }
    {
        let Sqe { op, .. } = self;
        op.row()
    }

    /// The entry that a row with these flags and this user_data stands for: Invalid where the values are not those that
    /// the table allows.
    #[inline(always)]
    pub fn of_row(row: Fields, flags: u8, user_data: u64) -> Sqe
        ensures says { Says (layout row flags user_data) result }
        ensures fits { IsTrue (fits result) }
        ensures user_data { result.user_data ≡ user_data }
        ensures valid { IsTrue (is_valid result.op) → (row ≡ table_row result.op) × (flags ≡ result.flags) }
        ensures invalid { result.op ≡ Op.Invalid → result.flags ≡ bit_and flags 12 }
        ensures again { (e : Entry) → IsTrue (fits e) → row ≡ table_row e.op → flags ≡ e.flags → user_data ≡ e.user_data → result ≡ e }
    {
        let op = row.candidate();
        if op.is_written_as(&row, flags) {
            Sqe {
                user_data,
                flags: SqeFlags::from_bits_retain(flags),
                op,
            }
        } else {
            Sqe::invalid(flags, user_data)
        }
    }

    /// The same entry with this user_data.
    pub fn with_user_data(self, user_data: u64) -> Sqe
        ensures { result ≡ record { user_data = user_data; flags = self.flags; op = self.op } }
    {
        let Sqe { flags, op, .. } = self;
        Sqe {
            user_data,
            flags,
            op,
        }
    }

    /// An Invalid entry, which keeps the link bits of its flags byte.
    pub(crate) fn invalid(flags: u8, user_data: u64) -> Sqe
        ensures { result ≡ record { user_data = user_data; flags = bit_and flags 12; op = Op.Invalid } }
    {
        Sqe {
            user_data,
            flags: SqeFlags::from_bits_retain(flags & Op::Invalid.allowed_flags()),
            op: Op::Invalid,
        }
    }
}
