//! Batches of entries with their buffers.

use entry::Sqe;
use prep::{with_flags, with_user_data};
use std::alloc::{AllocError, Global};

/// An entry with its flags, its user_data, and its buffer: this many bytes, from `first` on, each greater by one than the one before.
#[derive(Clone, Copy)]
pub(crate) struct Entry {
    pub sqe: Sqe,
    pub flags: u8,
    pub user_data: u64,
    pub bytes: u8,
    pub first: u8,
}

/// The buffer of an entry.
fn buffer_of(alloc: Global, entry: &Entry) -> Result<Vec<u8>, AllocError> {
    let mut buffer = Vec::new(alloc);
    for n in 0..entry.bytes {
        buffer.push(entry.first.saturating_add(n))?;
    }
    Ok(buffer)
}

/// The entries with their buffers.
pub(crate) fn batch_of(
    alloc: Global,
    entries: &[Entry],
) -> Result<Vec<(Sqe, Vec<u8>)>, AllocError> {
    let mut batch = Vec::new(alloc);
    for entry in entries {
        let sqe = with_user_data(with_flags(entry.sqe, entry.flags), entry.user_data);
        batch.push((sqe, buffer_of(alloc, entry)?))?;
    }
    Ok(batch)
}
