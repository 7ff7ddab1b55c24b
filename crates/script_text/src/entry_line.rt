//! What an entry line asks for, and the faults of its words.
ghost use Rattle.std.specs.Prelude.{◌≡◌, pos, IfOk};
ghost use Rattle.entry.specs.declared.op.Op.TheVariants.{AsyncCancel};
ghost use Rattle.prep.specs.Built.{plain};
ghost use Rattle.text.specs.Number.{number_in};
ghost use Rattle.script_text.specs.{all_stated, argument_faults, buffer_in, count_of, entry_faults, entry_of, etime_bit, fd_in, op_of, options_of, text_bytes, text_len, has_all, has_etime, KeepsFault, long_or, number_or, with_faults, texts};

use crate::declared_line::{note_target, target_in};
use crate::fault::Fault;
use crate::faults::Faults;
use crate::keyword::Kind;
use crate::labels::Labels;
use crate::options::{Options, note_options, options_in};
use crate::words::{is_same, word_at};
use entry::Sqe;
use limits::{BUFFER, FD, LENGTH};
use std::alloc::{AllocError, Global};
use text::number_of;

/// ETIME_SUCCESS, the bit of a TIMEOUT's flags word.
const ETIME_SUCCESS: u32 = 32;

/// The number that a word writes, from `low` to `high`, and `low` where it writes none of these.
pub fn number_or(word: &[u8], low: u32, high: u32) -> u32
    ensures { result ≡ number_or (number_in word.now) low high }
{
    match number_of(word) {
        Some(number) if low as u64 <= number && number <= high as u64 => number as u32,
        _ => low,
    }
}

/// The number that a word writes, and 0 where it writes none.
fn long_or(word: &[u8]) -> u64
    ensures { result ≡ long_or (number_in word.now) }
{
    number_of(word).unwrap_or(0)
}

/// The file descriptor that a word writes.
fn fd_in(word: &[u8]) -> i32
    ensures { result ≡ pos (fd_in word.now) }
{
    number_or(word, 0, FD) as i32
}

/// The bytes that a TEXT stands for: `-` is none.
fn text_bytes(word: &[u8]) -> &[u8]
    ensures { result.now ≡ text_bytes word.now }
{
    if is_same(word, b"-") { b"" } else { word }
}

/// How many bytes a TEXT stands for, and 0 where they are too many.
fn text_len(word: &[u8]) -> u32
    ensures { result ≡ text_len word.now }
{
    let len = text_bytes(word).len();
    if len > LENGTH as usize { 0 } else { len as u32 }
}

/// The flags word of a TIMEOUT.
fn etime_bit(is_set: bool) -> u32
    ensures { result ≡ etime_bit is_set }
{
    if is_set { ETIME_SUCCESS } else { 0 }
}

/// The entry of a `cancel`.
fn cancel_of(user_data: u64, all: bool) -> Sqe
    ensures { result ≡ plain (AsyncCancel user_data all) }
{
    if all {
        prep::cancel_all(user_data)
    } else {
        prep::cancel(user_data)
    }
}

/// The entry of a line that is no `raw`, without flags and user_data.
fn plain_entry<'a>(labels: &Labels<'a>, kind: Kind, words: &[&'a [u8]], options: Options) -> Sqe
    requires etime_ok { options.etime_ok ≡ has_etime kind (options_of kind (texts words.now)) }
    requires all { options.all ≡ has_all kind (options_of kind (texts words.now)) }
    requires count { options.count ≡ count_of (options_of kind (texts words.now)) }
    ensures { result ≡ plain (op_of (all_stated labels.now.lines.items) kind (texts words.now)) }
{
    let second = word_at(words, 2);
    let third = word_at(words, 3);
    let fourth = word_at(words, 4);
    match kind {
        Kind::Nop | Kind::Raw => prep::nop(),
        Kind::Read => prep::read(fd_in(second), number_or(third, 0, BUFFER), 0),
        Kind::Write => prep::write(fd_in(second), text_len(third), 0),
        Kind::Close => prep::close(fd_in(second)),
        Kind::Poll => prep::poll_add(fd_in(second), number_or(third, 0, u32::MAX)),
        Kind::Timeout => {
            prep::timeout_count(long_or(second), options.count, etime_bit(options.etime_ok))
        }
        Kind::LinkTimeout => prep::link_timeout(long_or(second)),
        Kind::Cancel => cancel_of(target_in(labels, second), options.all),
        Kind::Remove => prep::timeout_remove(target_in(labels, second)),
        Kind::Splice => prep::splice(fd_in(second), fd_in(third), number_or(fourth, 0, LENGTH)),
    }
}

/// The entry of a line that is no `raw`, the file's `number`-th.
pub fn entry_of<'a>(labels: &Labels<'a>, kind: Kind, words: &[&'a [u8]], number: u64) -> Sqe
    ensures { result ≡ entry_of (all_stated labels.now.lines.items) kind (texts words.now) number }
{
    let options = Options::of(kind, options_in(kind, words));
    let sqe = plain_entry(labels, kind, words, options);
    let flagged = prep::with_flags(sqe, options.flags);
    prep::with_user_data(flagged, options.user_data.unwrap_or(number))
}

/// Notes the faults of the arguments after the label.
#[tactic(auto, using(crate::proofs::Noting::with_faults_append))]
fn note_arguments<'a>(faults: &mut Faults, labels: &Labels<'a>, kind: Kind, words: &[&'a [u8]])
    ensures stays { KeepsFault faults.old.least faults.new.least }
    ensures is_first { faults.new.least ≡ with_faults faults.old.least (argument_faults (all_stated labels.now.lines.items) kind (texts words.now)) }
{
    let second = word_at(words, 2);
    let third = word_at(words, 3);
    let fourth = word_at(words, 4);
    match kind {
        Kind::Nop | Kind::Raw => {}
        Kind::Read => {
            faults.number(second, 0, FD);
            faults.number(third, 0, BUFFER);
        }
        Kind::Write => {
            faults.number(second, 0, FD);
            faults.note_if(text_bytes(third).len() > LENGTH as usize, Fault::OutOfRange);
        }
        Kind::Close => faults.number(second, 0, FD),
        Kind::Poll => {
            faults.number(second, 0, FD);
            faults.number(third, 0, u32::MAX);
        }
        Kind::Timeout | Kind::LinkTimeout => faults.long_number(second),
        Kind::Cancel | Kind::Remove => note_target(faults, labels, second),
        Kind::Splice => {
            faults.number(second, 0, FD);
            faults.number(third, 0, FD);
            faults.number(fourth, 0, LENGTH);
        }
    }
}

/// Notes the faults of the words of a line that is no `raw`.
#[tactic(auto, using(crate::proofs::Noting::with_faults_append))]
pub fn note_entry<'a>(faults: &mut Faults, labels: &Labels<'a>, kind: Kind, words: &[&'a [u8]])
    ensures stays { KeepsFault faults.old.least faults.new.least }
    ensures is_first { faults.new.least ≡ with_faults faults.old.least (entry_faults (all_stated labels.now.lines.items) kind (texts words.now)) }
{
    note_options(faults, kind, options_in(kind, words));
    note_arguments(faults, labels, kind, words);
}

/// The buffer of a line that is no `raw`.
pub fn buffer_of(alloc: Global, kind: Kind, words: &[&[u8]]) -> Result<Vec<u8>, AllocError>
    ensures { IfOk result (λ buffer. buffer.items ≡ buffer_in kind (texts words.now)) }
{
    let third = word_at(words, 3);
    match kind {
        Kind::Read => vec![in alloc; 0u8; number_or(third, 0, BUFFER) as usize],
        Kind::Write => Vec::from_slice(alloc, text_bytes(third)),
        _ => Ok(Vec::new(alloc)),
    }
}
