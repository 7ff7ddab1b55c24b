//! Bytes as the texts write them: two lower-case hexadecimal digits a byte.
ghost use Rattle.std.specs.Prelude.{◌≡◌, ℕ, List, IfOk, IfSome, IsSomeAnd, ◌≢◌, None};
ghost use Rattle.hex.specs.Hex.{encode_lower, IsBytes};

use hex::FromHexError;
use std::alloc::{AllocError, Global};

/// What it means that digits can't be read: that memory ran out, or that they write no bytes.
fn unread(error: FromHexError) -> Result<Option<Vec<u8>>, AllocError>
    ensures { IfOk result (λ o. (o ≡ None) × (error ≢ FromHexError.OutOfMemory)) }
{
    match error {
        FromHexError::OutOfMemory => Err(AllocError),
        FromHexError::OddLength
        | FromHexError::InvalidHexCharacter { .. }
        | FromHexError::InvalidStringLength => Ok(None),
    }
}

/// The bytes that the digits write. None where they are an odd number, or one is no digit or an upper-case one.
pub fn bytes_of(alloc: Global, digits: &[u8]) -> Result<Option<Vec<u8>>, AllocError>
    ensures found { IfOk result (λ o. IfSome o (λ v. IsBytes v.items × (digits.now ≡ encode_lower v.items))) }
    ensures only { IfOk result (λ o. (bytes : List ℕ) → IsBytes bytes → digits.now ≡ encode_lower bytes
        → IsSomeAnd o (λ v. v.items ≡ bytes)) }
{
    let bytes = match hex::decode(alloc, digits) {
        Ok(bytes) => bytes,
        Err(error) => return unread(error),
    };
    let spelled = hex::encode(alloc, bytes.as_slice())?;
    if spelled.as_bytes() == digits {
        Ok(Some(bytes))
    } else {
        Ok(None)
    }
}
