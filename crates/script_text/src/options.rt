//! The options of an entry line.
ghost use Rattle.std.specs.Prelude.{◌≡◌, ◌+◌, drop, not};
ghost use Rattle.std.specs.List.{list_any};
ghost use Rattle.script_text.specs.{user_data_of, KeepsFault, arguments_of, with_faults, count_of, bit_if, count_in, flags_in, given_count, given_user_data, has_all, has_count_twice, has_etime, has_option, has_twice, has_user_data_twice, is_bad_number, is_cancel, is_count, is_option, is_own, is_timeout, is_user_data, option_faults, repeats, repeats_own, user_data_in, texts};

use crate::fault::Fault;
use crate::faults::Faults;
use crate::keyword::Kind;
use crate::words::is_same;
use entry::{Sqe, by_flag};
use text::number_of;

/// The option that asks for a flag.
macro_rules! option_of {
    (IO_DRAIN) => { b"drain" };
    (IO_LINK) => { b"link" };
    (IO_HARDLINK) => { b"hard" };
}

macro_rules! is_flag {
    (($word:expr) $first:ident = $bit:literal: $text:literal $class:tt; $($flag:ident = $value:literal: $shown:literal $kind:tt;)*) => {
        is_same($word, option_of!($first)) $(|| is_same($word, option_of!($flag)))*
    };
}

macro_rules! repeats_flag {
    (($options:expr) $first:ident = $bit:literal: $text:literal $class:tt; $($flag:ident = $value:literal: $shown:literal $kind:tt;)*) => {
        has_twice($options, option_of!($first)) $(|| has_twice($options, option_of!($flag)))*
    };
}

macro_rules! flag_bits {
    (($options:expr) $first:ident = $bit:literal: $text:literal $class:tt; $($flag:ident = $value:literal: $shown:literal $kind:tt;)*) => {
        bit_if(has_option($options, option_of!($first)), $bit) $(+ bit_if(has_option($options, option_of!($flag)), $value))*
    };
}

/// What the options of an entry line ask for.
#[derive(Clone, Copy)]
pub struct Options {
    pub flags: u8,
    pub etime_ok: bool,
    /// Whether a `cancel` means each request that has its user_data.
    pub all: bool,
    /// How many completions a `timeout` counts, and 0 where no option gives it.
    pub count: u64,
    pub user_data: Option<u64>,
}

impl Options {
    /// What these words ask for as options, in any order.
    pub fn of(kind: Kind, options: &[&[u8]]) -> Options
        ensures flags { result.flags ≡ flags_in (texts options.now) }
        ensures etime_ok { result.etime_ok ≡ has_etime kind (texts options.now) }
        ensures all { result.all ≡ has_all kind (texts options.now) }
        ensures count { result.count ≡ count_of (texts options.now) }
        ensures user_data { result.user_data ≡ given_user_data (texts options.now) }
    {
        Options {
            flags: flags_in(options),
            etime_ok: is_timeout(kind) && has_option(options, b"etime-ok"),
            all: is_cancel(kind) && has_option(options, b"all"),
            count: given_count(options).unwrap_or(0),
            user_data: given_user_data(options),
        }
    }
}

/// Notes the faults of the options of an entry line.
#[tactic(auto, using(crate::proofs::Noting::with_faults_append))]
pub fn note_options(faults: &mut Faults, kind: Kind, options: &[&[u8]])
    ensures stays { KeepsFault faults.old.least faults.new.least }
    ensures is_first { faults.new.least ≡ with_faults faults.old.least (option_faults kind (texts options.now)) }
{
    faults.note_if(has_unknown(kind, options), Fault::UnknownWord);
    faults.note_if(repeats(kind, options), Fault::ExtraArgument);
    faults.note_if(has_bad_number(options), Fault::BadNumber);
}

/// Whether a word is `ud=NUMBER`, whatever its number.
pub fn is_user_data(word: &[u8]) -> bool
    ensures { result ≡ is_user_data word.now }
{
    word.starts_with(b"ud=")
}

/// The number that stands after `ud=`, or in place of other three bytes.
pub fn user_data_in(word: &[u8]) -> Option<u64>
    ensures { result ≡ user_data_in word.now }
{
    number_of(&word[3.min(word.len())..])
}

/// Whether a word is `count=NUMBER`, whatever its number.
fn is_count(word: &[u8]) -> bool
    ensures { result ≡ is_count word.now }
{
    word.starts_with(b"count=")
}

/// The number that stands after `count=`, or in place of other six bytes.
fn count_in(word: &[u8]) -> Option<u64>
    ensures { result ≡ count_in word.now }
{
    number_of(&word[6.min(word.len())..])
}

/// Whether a word is `ud=` or `count=` and no number.
fn is_bad_number(word: &[u8]) -> bool
    ensures { result ≡ is_bad_number word.now }
{
    (is_user_data(word) && user_data_in(word).is_none())
        || (is_count(word) && count_in(word).is_none())
}

/// Whether `etime-ok` and `count=NUMBER` are options of such a line.
fn is_timeout(kind: Kind) -> bool
    ensures { result ≡ is_timeout kind }
{
    matches!(kind, Kind::Timeout)
}

/// Whether `all` is an option of such a line.
fn is_cancel(kind: Kind) -> bool
    ensures { result ≡ is_cancel kind }
{
    matches!(kind, Kind::Cancel)
}

/// Whether a word is an option of such a line, and of no other kind.
fn is_own(kind: Kind, word: &[u8]) -> bool
    ensures { result ≡ is_own kind word.now }
{
    let is_timed = is_timeout(kind) && (is_same(word, b"etime-ok") || is_count(word));
    is_timed || (is_cancel(kind) && is_same(word, b"all"))
}

/// Whether a word is an option of such a line.
fn is_option(kind: Kind, word: &[u8]) -> bool
    ensures { result ≡ is_option kind word.now }
{
    let is_flag = by_flag!(is_flag!(word));
    is_flag || (is_own(kind, word) || is_user_data(word))
}

fn has_unknown(kind: Kind, options: &[&[u8]]) -> bool
    ensures { result ≡ list_any (λ option. not (is_option kind option)) (texts options.now) }
{
    options.iter().any(|option| !is_option(kind, option))
}

fn has_bad_number(options: &[&[u8]]) -> bool
    ensures { result ≡ list_any is_bad_number (texts options.now) }
{
    options.iter().any(|option| is_bad_number(option))
}

fn has_option(options: &[&[u8]], name: &[u8]) -> bool
    ensures { result ≡ has_option name.now (texts options.now) }
{
    options.iter().any(|option| is_same(option, name))
}

fn has_twice(options: &[&[u8]], name: &[u8]) -> bool
    ensures { result ≡ has_twice name.now (texts options.now) }
{
    options
        .iter()
        .filter(|option| is_same(option, name))
        .count()
        > 1
}

fn has_user_data_twice(options: &[&[u8]]) -> bool
    ensures { result ≡ has_user_data_twice (texts options.now) }
{
    options.iter().filter(|option| is_user_data(option)).count() > 1
}

fn has_count_twice(options: &[&[u8]]) -> bool
    ensures { result ≡ has_count_twice (texts options.now) }
{
    options.iter().filter(|option| is_count(option)).count() > 1
}

/// Whether an option of this kind of line alone stands twice.
fn repeats_own(kind: Kind, options: &[&[u8]]) -> bool
    ensures { result ≡ repeats_own kind (texts options.now) }
{
    let timed = is_timeout(kind) && (has_twice(options, b"etime-ok") || has_count_twice(options));
    timed || (is_cancel(kind) && has_twice(options, b"all"))
}

/// Whether an option stands twice.
fn repeats(kind: Kind, options: &[&[u8]]) -> bool
    ensures { result ≡ repeats kind (texts options.now) }
{
    let flag = by_flag!(repeats_flag!(options));
    flag || (repeats_own(kind, options) || has_user_data_twice(options))
}

fn bit_if(is_set: bool, bit: u8) -> u8
    ensures { result ≡ bit_if is_set bit }
{
    if is_set { bit } else { 0 }
}

/// The flags that options ask for: IOSQE_IO_DRAIN, IOSQE_IO_LINK and IOSQE_IO_HARDLINK of io_uring_enter(2).
fn flags_in(options: &[&[u8]]) -> u8
    ensures { result ≡ flags_in (texts options.now) }
{
    by_flag!(flag_bits!(options))
}

/// The user_data that the first `ud=NUMBER` of these options gives.
fn given_user_data(options: &[&[u8]]) -> Option<u64>
    ensures { result ≡ given_user_data (texts options.now) }
{
    match options.iter().find(|option| is_user_data(option)) {
        Some(option) => user_data_in(option),
        None => None,
    }
}

/// The count that the first `count=NUMBER` of these options gives.
fn given_count(options: &[&[u8]]) -> Option<u64>
    ensures { result ≡ given_count (texts options.now) }
{
    match options.iter().find(|option| is_count(option)) {
        Some(option) => count_in(option),
        None => None,
    }
}

/// The user_data of an entry line that is the script's `number`-th, and whose digits write this entry.
pub fn user_data_of(kind: Kind, words: &[&[u8]], given: Option<Sqe>, number: u64) -> u64
    ensures { result ≡ user_data_of kind (texts words.now) given number }
{
    if kind.is_raw() {
        match given {
            Some(entry) => entry.user_data(),
            None => number,
        }
    } else {
        given_user_data(options_in(kind, words)).unwrap_or(number)
    }
}

/// The words of an entry line after its arguments.
pub fn options_in<'a, 'b>(kind: Kind, words: &'b [&'a [u8]]) -> &'b [&'a [u8]]
    ensures { texts result.now ≡ drop (1 + arguments_of kind) (texts words.now) }
{
    let first = (1 + kind.arguments()).min(words.len());
    &words[first..]
}
