//! Entries, their parts, completions and claim words.
use crate::entries::entry_of;
use crate::printed::{Digits, Printed, Slip, debugged, said, shown};
use crate::words::Words;
use bitflags::Flags;
use claim::{Cause, ClaimWord, GENERATIONS, Tag, pack, unpack};
use entry::{Cqe, Fields, Offset, Op, Sqe, SqeFlags, fails};
use std::alloc::{AllocError, Global};

/// What is printed of a value by the words after its kind.
pub fn printed(kind: &str, words: &mut Words<'_>) -> Printed {
    let alloc = words.alloc;
    match kind {
        "sqe" => printed_of_entry(Sqe::of_bytes(&words.array()), words),
        "row" => {
            let entry = Sqe::of_row(row_of(words), words.number(), words.number());
            printed_of_entry(entry, words)
        }
        "entry" => {
            let (entry, _) = entry_of(words)?;
            printed_of_entry(entry, words)
        }
        "fails" => {
            let res = words.number();
            let (entry, _) = entry_of(words)?;
            shown(alloc, &fails(&entry, res))
        }
        "near" => printed_of_neighbours(alloc, &words.array()),
        "candidate" => printed_of_op(alloc, row_of(words).candidate()),
        "is_written" => {
            let row = row_of(words);
            shown(alloc, &row.candidate().is_written_as(&row, words.number()))
        }
        "ticks" => {
            let ticks = words.number();
            printed_of_op(alloc, Op::LinkTimeout { ticks })
        }
        "constants" => printed_of_constants(alloc),
        "cqe" => printed_of_completion(alloc, Cqe::of_bytes(&words.array())),
        "completion" => {
            let (user_data, res) = (words.number(), words.number());
            printed_of_completion(alloc, Some(Cqe { user_data, res }))
        }
        _ => printed_of_claim(kind, words),
    }
}

/// A row by its columns.
fn row_of(words: &mut Words<'_>) -> Fields {
    Fields {
        opcode: words.number(),
        fd: words.number(),
        off: words.number(),
        addr: words.number(),
        len: words.number(),
        word: words.number(),
        splice_fd_in: words.number(),
    }
}

/// The texts of an entry, its parts, its flags and what they ask for, its row, its bytes, and whether it is read from these.
fn printed_of_entry(sqe: Sqe, words: &Words<'_>) -> Printed {
    words.end()?;
    let alloc = words.alloc;
    let (user_data, flags, op, row) = (sqe.user_data(), sqe.flags(), sqe.op(), sqe.row());
    let (bits, link, hard) = (
        flags.bits(),
        flags.contains(SqeFlags::IO_LINK),
        flags.contains(SqeFlags::IO_HARDLINK),
    );
    let (drains, soft, hards) = (sqe.drains(), sqe.links_soft(), sqe.links_hard());
    let bytes = sqe.to_bytes();
    let (digits, again) = (Digits(&bytes), Sqe::of_bytes(&bytes) == sqe);
    let mut printed = format!(in alloc;
        "{sqe}/{sqe:?}/user_data {user_data} flags {bits} op {op:?}"
    )?;
    printed.push_str(format!(in alloc; "/contains link {link} hard {hard}")?.as_str())?;
    printed.push_str(format!(in alloc;
        "/drains {drains} links_soft {soft} links_hard {hards}"
    )?.as_str())?;
    printed.push_str(format!(in alloc; "/{row:?}/{digits} again {again}")?.as_str())?;
    Ok(printed)
}

/// How many of the 512 entries that differ in one bit are valid, Invalid, or neither.
fn printed_of_neighbours(alloc: Global, bytes: &[u8; 64]) -> Printed {
    let (mut valid, mut invalid, mut wrong) = (0u32, 0u32, 0u32);
    for i in 0..512usize {
        let mut near = *bytes;
        near[i / 8] ^= 1 << (i % 8);
        match is_valid(&near) {
            Some(true) => valid = valid.saturating_add(1),
            Some(false) => invalid = invalid.saturating_add(1),
            None => wrong = wrong.saturating_add(1),
        }
    }
    Ok(format!(in alloc; "valid {valid} invalid {invalid} wrong {wrong}")?)
}

/// Whether the bytes are those of a valid entry. None where a valid one isn't written back as read, an Invalid one doesn't
/// keep its link bits, or its user_data is another.
fn is_valid(bytes: &[u8; 64]) -> Option<bool> {
    let sqe = Sqe::of_bytes(bytes);
    let mut user_data = [0; 8];
    user_data.copy_from_slice(&bytes[32..40]);
    let is_valid = sqe.op() != Op::Invalid;
    let is_kept = if is_valid {
        sqe.to_bytes() == *bytes
    } else {
        sqe.flags().bits() == bytes[1] & 12
    };
    if is_kept && sqe.user_data() == u64::from_le_bytes(user_data) {
        Some(is_valid)
    } else {
        None
    }
}

/// The texts of an operation, whether its values fit, the flags that it may have, and its row.
fn printed_of_op(alloc: Global, op: Op) -> Printed {
    let (fits, flags, row) = (op.fits(), op.allowed_flags(), op.row());
    Ok(format!(in alloc; "{op}/{op:?}/fits {fits} allowed_flags {flags}/{row:?}")?)
}

/// The bits of the flags, and the numbers of the offsets.
fn printed_of_constants(alloc: Global) -> Printed {
    let (drain, link, hard, all) = (
        SqeFlags::IO_DRAIN.bits(),
        SqeFlags::IO_LINK.bits(),
        SqeFlags::IO_HARDLINK.bits(),
        SqeFlags::all().bits(),
    );
    let (zero, current) = (Offset::Zero.number(), Offset::Current.number());
    Ok(format!(in alloc;
        "drain {drain} link {link} hard {hard} all {all}, zero {zero} current {current}"
    )?)
}

/// The texts of a completion, its bytes, and whether it is read from these.
fn printed_of_completion(alloc: Global, cqe: Option<Cqe>) -> Printed {
    let Some(cqe) = cqe else {
        return said(alloc, "none");
    };
    let bytes = cqe.to_bytes();
    let (digits, again) = (Digits(&bytes), Cqe::of_bytes(&bytes) == Some(cqe));
    Ok(format!(in alloc; "{cqe}/{cqe:?}/{digits} again {again}")?)
}

/// What is printed of 64 bits, a claim word, a cause or the number of a tag.
fn printed_of_claim(kind: &str, words: &mut Words<'_>) -> Printed {
    let alloc = words.alloc;
    match kind {
        "claim" => printed_of_word(alloc, unpack(u64::from_be_bytes(words.array()))),
        "word" => printed_of_word(alloc, Some(word_of(words))),
        "cause" => {
            let cause = cause_of(words);
            let (number, failed) = (cause.number(false), cause.number(true));
            Ok(format!(in alloc; "{cause:?} {number} {failed}")?)
        }
        "tag" => {
            let tag = Tag::of_number(words.number());
            let number = tag.map(Tag::number);
            Ok(format!(in alloc; "{tag:?} {number:?}")?)
        }
        _ => Err(Slip::BadLine),
    }
}

/// A claim word by what its request is doing, its generation and the rest.
fn word_of(words: &mut Words<'_>) -> ClaimWord {
    let tag = words.word();
    let mut at = words.number();
    if at >= GENERATIONS {
        at = words.bad(0);
    }
    match tag {
        "empty" => ClaimWord::empty(at),
        "held" => ClaimWord::held(at),
        "ready" => ClaimWord::ready(at),
        "running" => ClaimWord::running(at),
        "armed" => ClaimWord::armed(at, words.number()),
        "done" => ClaimWord::done(at, cause_of(words), false, words.number()),
        "failed" => ClaimWord::done(at, cause_of(words), true, words.number()),
        _ => words.bad(ClaimWord::empty(at)),
    }
}

/// A cause by its name.
fn cause_of(words: &mut Words<'_>) -> Cause {
    match words.word() {
        "reply" => Cause::Reply,
        "take" => Cause::Take,
        "expire" => Cause::Expire,
        "fire" => Cause::Fire,
        "settle" => Cause::Settle,
        "sever" => Cause::Sever,
        "count" => Cause::Count,
        _ => words.bad(Cause::Reply),
    }
}

/// The texts of a claim word, what is read of it, its 64 bits, and whether it is read from these.
fn printed_of_word(alloc: Global, word: Option<ClaimWord>) -> Printed {
    let Some(word) = word else {
        return said(alloc, "none");
    };
    let (reply, has_failed, payload) = (word.reply(), word.has_failed(), word.payload);
    let bits = pack(word);
    let bytes = bits.to_be_bytes();
    let (digits, again) = (Digits(&bytes), unpack(bits) == Some(word));
    Ok(format!(in alloc;
        "{word}/{word:?}/reply {reply} has_failed {has_failed} payload {payload}/{digits} again {again}"
    )?)
}
