//! A line of a table, written and read.
ghost use Rattle.std.specs.Prelude.{◌≡◌, ◌≢◌, ◌<◌, ◌++◌, ℕ, ℤ, List, OnOk, IfOk, IfSome, IsSomeAnd, MatchOption, FitsSigned, length, slice_index};
ghost use Rattle.std.specs.Int.{w32};
ghost use Rattle.std.specs.Fmt.{signed_decimal};
ghost use Rattle.hex.specs.Hex.{IsBytes};
ghost use Rattle.text.specs.Line.{IsCut, IsCutByte, IsLine, data_text, line_text, shown_count};

use crate::digits::bytes_of;
use crate::number::reply_of;
use itoa::Buffer;
use std::alloc::{AllocError, Global};

/// How many bytes of data a line shows: as many as the reply says after a READ, and none after another entry.
pub fn shown_count(reads: bool, reply: i32) -> usize
    ensures { result ≡ shown_count reads reply }
{
    if reads && reply > 0 {
        reply as usize
    } else {
        0
    }
}

/// Writes a space and the data at the end, where there are any.
fn push_data(alloc: Global, out: &mut Vec<u8>, bytes: &[u8]) -> Result<(), AllocError>
    ensures { OnOk result (out.new.items ≡ out.old.items ++ data_text bytes.now) }
{
    if bytes.is_empty() {
        return Ok(());
    }
    let digits = hex::encode(alloc, bytes)?;
    out.push(b' ')?;
    out.extend_from_slice(digits.as_bytes())?;
    Ok(())
}

/// Writes a line at the end.
pub fn push_line(
    alloc: Global,
    out: &mut Vec<u8>,
    label: &[u8],
    reply: i32,
    bytes: &[u8],
) -> Result<(), AllocError>
    ensures { OnOk result (out.new.items ≡ out.old.items ++ line_text label.now reply bytes.now) }
{
    let mut buffer = Buffer::new();
    out.extend_from_slice(label)?;
    out.push(b' ')?;
    out.extend_from_slice(buffer.format(reply).as_bytes())?;
    push_data(alloc, out, bytes)?;
    out.push(b'\n')?;
    Ok(())
}

/// What stands after the front, where the bytes begin with it.
fn behind<'a>(bytes: &'a [u8], front: &[u8]) -> Option<&'a [u8]>
    ensures { MatchOption result ((rest : List ℕ) → bytes.now ≡ front.now ++ rest → ⊥) (λ x. bytes.now ≡ front.now ++ x.now) }
{
    bytes.strip_prefix(front)
}

/// The bytes up to the first space or line feed, and the others.
fn word_at(bytes: &[u8]) -> (&[u8], &[u8])
    ensures whole { bytes.now ≡ result.0.now ++ result.1.now }
    ensures uncut { (k : ℕ) → k < length result.0.now → IsCutByte (slice_index result.0.now k) → ⊥ }
    ensures cut { IsCut result.1.now }
{
    for (i, byte) in bytes.iter().enumerate() {
        if *byte == b' ' || *byte == b'\n' {
            return bytes.split_at(i);
        }
    }
    bytes.split_at(bytes.len())
}

/// The reply that stands at the front, up to a space or a line feed, and what is after it.
fn reply_at(bytes: &[u8]) -> Option<(i32, &[u8])>
    ensures found { IfSome result (λ x. FitsSigned w32 x.0 × (bytes.now ≡ signed_decimal x.0 ++ x.1.now)) }
    ensures only { (reply : ℤ) (rest : List ℕ) → FitsSigned w32 reply → IsCut rest → bytes.now ≡ signed_decimal reply ++ rest
        → IsSomeAnd result (λ x. (x.0 ≡ reply) × (x.1.now ≡ rest)) }
{
    let (word, rest) = word_at(bytes);
    let reply = reply_of(word)?;
    Some((reply, rest))
}

/// The data of this many bytes at the front, with the space before them, and what is after them.
fn data_at(
    alloc: Global,
    count: usize,
    bytes: &[u8],
) -> Result<Option<(Vec<u8>, &[u8])>, AllocError>
    ensures found { IfOk result (λ o. IfSome o (λ x.
        IsBytes x.0.items × (length x.0.items ≡ count) × (bytes.now ≡ data_text x.0.items ++ x.1.now))) }
    ensures only { IfOk result (λ o. (shown rest : List ℕ) → IsBytes shown → length shown ≡ count → bytes.now ≡ data_text shown ++ rest
        → IsSomeAnd o (λ x. (x.0.items ≡ shown) × (x.1.now ≡ rest))) }
{
    if count == 0 {
        return Ok(Some((Vec::new(alloc), bytes)));
    }
    let Some(rest) = behind(bytes, b" ") else {
        return Ok(None);
    };
    if rest.len() / 2 < count {
        return Ok(None);
    }
    let (digits, rest) = rest.split_at(2 * count);
    let Some(shown) = bytes_of(alloc, digits)? else {
        return Ok(None);
    };
    Ok(Some((shown, rest)))
}

/// The line of an entry at the front: its reply, its data and what is after it. None where no line of that entry stands
/// there.
pub fn line_at<'a>(
    alloc: Global,
    label: &[u8],
    reads: bool,
    bytes: &'a [u8],
) -> Result<Option<(i32, Vec<u8>, &'a [u8])>, AllocError>
    ensures found { IfOk result (λ o. IfSome o (λ x.
        IsLine reads x.0 x.1.items × (bytes.now ≡ line_text label.now x.0 x.1.items ++ x.2.now))) }
    ensures only { IfOk result (λ o. (reply : ℤ) (shown rest : List ℕ) → IsLine reads reply shown
        → bytes.now ≡ line_text label.now reply shown ++ rest
        → IsSomeAnd o (λ x. (x.0 ≡ reply) × (x.1.items ≡ shown) × (x.2.now ≡ rest))) }
{
    let Some(rest) = behind(bytes, label) else {
        return Ok(None);
    };
    let Some(rest) = behind(rest, b" ") else {
        return Ok(None);
    };
    let Some((reply, rest)) = reply_at(rest) else {
        return Ok(None);
    };
    let Some((data, rest)) = data_at(alloc, shown_count(reads, reply), rest)? else {
        return Ok(None);
    };
    let Some(rest) = behind(rest, b"\n") else {
        return Ok(None);
    };
    Ok(Some((reply, data, rest)))
}
