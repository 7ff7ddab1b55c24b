//! The 64 bytes of an entry.
ghost use Rattle.std.specs.Prelude.{◌≡◌, IsTrue};
ghost use Rattle.entry.specs.Entry.{Entry};
ghost use Rattle.entry.specs.{fits, is_valid, Says, is_plain, layout, row_at, text};

use crate::field::{i32_at, put_i32, put_u32, put_u64, u16_at, u32_at, u64_at};
use crate::row::Fields;
use crate::sqe::Sqe;
use bitflags::Flags;

/// The columns of the table of opcodes, as they stand in the bytes.
fn row_at(bytes: &[u8; 64]) -> Fields
    ensures { result ≡ row_at bytes.now }
{
    Fields {
        opcode: bytes[0],
        fd: i32_at(bytes, 4),
        off: u64_at(bytes, 8),
        addr: u64_at(bytes, 16),
        len: u32_at(bytes, 24),
        word: u32_at(bytes, 28),
        splice_fd_in: i32_at(bytes, 44),
    }
}

/// Whether all fields that no row uses are zero: ioprio, buf_index with personality, and the last 16 bytes.
fn is_plain(bytes: &[u8; 64]) -> bool
    ensures { result ≡ is_plain bytes.now }
{
    u16_at(bytes, 2) == 0
        && u32_at(bytes, 40) == 0
        && u64_at(bytes, 48) == 0
        && u64_at(bytes, 56) == 0
}

/// The bytes of a row with these flags and this user_data.
fn layout(row: &Fields, flags: u8, user_data: u64) -> [u8; 64]
    ensures { result ≡ layout row.now flags user_data }
{
    let mut bytes = [0; 64];
    bytes[0] = row.opcode;
    bytes[1] = flags;
    put_i32(&mut bytes, 4, row.fd);
    put_u64(&mut bytes, 8, row.off);
    put_u64(&mut bytes, 16, row.addr);
    put_u32(&mut bytes, 24, row.len);
    put_u32(&mut bytes, 28, row.word);
    put_u64(&mut bytes, 32, user_data);
    put_i32(&mut bytes, 44, row.splice_fd_in);
    bytes
}

impl Sqe {
    /// The entry that the bytes stand for: Invalid, with their user_data and link bits, where they fit no row.
    pub fn of_bytes(bytes: &[u8; 64]) -> Sqe
        ensures says { Says bytes.now result }
        ensures fits { IsTrue (fits result) }
        ensures again { (e : Entry) → IsTrue (fits e) → bytes.now ≡ text e → result ≡ e }
        ensures back { IsTrue (is_valid result.op) → text result ≡ bytes.now }
    {
        let flags = bytes[1];
        let user_data = u64_at(bytes, 32);
        if is_plain(bytes) {
            Sqe::of_row(row_at(bytes), flags, user_data)
        } else {
            Sqe::invalid(flags, user_data)
        }
    }

    /// The entry's bytes.
    pub fn to_bytes(&self) -> [u8; 64]
        ensures text { result ≡ text self.now }
        ensures fits { IsTrue (fits self.now) }
    {
        layout(&self.row(), self.flags().bits(), self.user_data())
    }
}
