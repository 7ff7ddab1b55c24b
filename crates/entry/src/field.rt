//! Little-endian numbers at places of a text of bytes.
ghost use Rattle.std.specs.Prelude.{◌≡◌, ◌+◌, ◌≤◌, length};
ghost use Rattle.std.specs.Int.{w32, cast_signed, cast_unsigned};
ghost use Rattle.byteorder.specs.Endian.{little_bytes};
ghost use Rattle.entry.specs.Text.{number_at, put};

use byteorder::{ByteOrder, LittleEndian};

/// The number in the two bytes from a place on.
#[tactic(auto, unfolding(crate::specs::Text::number_at))]
pub fn u16_at(bytes: &[u8], at: usize) -> u16
    requires { at + 2 ≤ length bytes.now }
    ensures { result ≡ number_at at 2 bytes.now }
{
    LittleEndian::read_u16(&bytes[at..])
}

/// The number in the four bytes from a place on.
#[tactic(auto, unfolding(crate::specs::Text::number_at))]
pub fn u32_at(bytes: &[u8], at: usize) -> u32
    requires { at + 4 ≤ length bytes.now }
    ensures { result ≡ number_at at 4 bytes.now }
{
    LittleEndian::read_u32(&bytes[at..])
}

/// The signed number in the four bytes from a place on.
#[tactic(auto, unfolding(crate::specs::Text::number_at))]
pub fn i32_at(bytes: &[u8], at: usize) -> i32
    requires { at + 4 ≤ length bytes.now }
    ensures { result ≡ cast_signed w32 (number_at at 4 bytes.now) }
{
    LittleEndian::read_i32(&bytes[at..])
}

/// The number in the eight bytes from a place on.
#[tactic(auto, unfolding(crate::specs::Text::number_at))]
pub fn u64_at(bytes: &[u8], at: usize) -> u64
    requires { at + 8 ≤ length bytes.now }
    ensures { result ≡ number_at at 8 bytes.now }
{
    LittleEndian::read_u64(&bytes[at..])
}

/// Writes the number into the four bytes from a place on.
pub fn put_u32(bytes: &mut [u8], at: usize, n: u32)
    requires { at + 4 ≤ length bytes.old }
    ensures { bytes.new ≡ put at 4 (little_bytes 4 n) bytes.old }
{
    LittleEndian::write_u32(&mut bytes[at..], n);
}

/// Writes the signed number into the four bytes from a place on.
pub fn put_i32(bytes: &mut [u8], at: usize, n: i32)
    requires { at + 4 ≤ length bytes.old }
    ensures { bytes.new ≡ put at 4 (little_bytes 4 (cast_unsigned w32 n)) bytes.old }
{
    LittleEndian::write_i32(&mut bytes[at..], n);
}

/// Writes the number into the eight bytes from a place on.
pub fn put_u64(bytes: &mut [u8], at: usize, n: u64)
    requires { at + 8 ≤ length bytes.old }
    ensures { bytes.new ≡ put at 8 (little_bytes 8 n) bytes.old }
{
    LittleEndian::write_u64(&mut bytes[at..], n);
}
