//! The faults of a line, by what stands above it and by what the file declares.
ghost use Rattle.std.specs.Prelude.{◌≡◌, [], length, IfSome, MatchOption};
ghost use Rattle.std.specs.List.{list_any};
ghost use Rattle.script_text.specs.{all_stated, line_of, IsOfScript, KeepsFault, declare_faults, in_place, is_long_batch, is_over, is_short, keyword_faults, kind_faults, may_be_timer, own_faults, pending_of, posts_faults, word_faults, faults_here, pending_at, has_label, standing, sentence, most_words, IsFirst, with_faults, texts};

use crate::actor::Actor;
use crate::declared_line::note_label;
use crate::entry_line::{note_entry, number_or};
use crate::fault::Fault;
use crate::faults::Faults;
use crate::keyword::{Keyword, Kind};
use crate::labels::Labels;
use crate::line::Line;
use crate::outline::Outline;
use crate::parts::Parts;
use crate::raw::note_raw;
use crate::words::{is_plain, is_same, word_at};
use entry::Sqe;
use limits::{CAPACITY, CELLS, ENTRIES, PIPES, POSTS, RINGS, TICK};
use script::{Named, is_label};

/// How many entries of an actor no `submit` has taken yet.
fn pending_len(actor: Actor, pending: &[Vec<u32>]) -> usize
    ensures { result ≡ length (pending_of actor (pending_at pending.now)) }
{
    match actor {
        Actor::Ring(ring) => match pending.get(ring) {
            Some(places) => places.len(),
            None => 0,
        },
        _ => 0,
    }
}

/// Whether a batch of an actor has more entries than its ring has cells.
fn is_long_batch(actor: Actor, rings: &[(u32, Option<u32>)], pending: &[Vec<u32>]) -> bool
    ensures { result ≡ is_long_batch actor rings.now (pending_at pending.now) }
{
    match actor {
        Actor::Ring(ring) => match rings.get(ring) {
            Some(shape) => pending_len(actor, pending) > shape.0 as usize,
            None => false,
        },
        _ => false,
    }
}

/// Whether no entry line of another kind than a timer declares a label.
fn may_be_timer<'a>(labels: &Labels<'a>, label: &'a [u8]) -> bool
    ensures { result ≡ may_be_timer (line_of (all_stated labels.now.lines.items) label.now) }
{
    match labels.line_of(label) {
        Some(line) => line.kind.is_timer(),
        None => true,
    }
}

/// Whether a line with this first word may stand where the reading is.
fn in_place<'a>(parts: &Parts, labels: &Labels<'a>, keyword: Keyword, words: &[&'a [u8]]) -> bool
    ensures { result ≡ in_place (standing parts.now) (all_stated labels.now.lines.items) keyword (texts words.now) }
{
    let actor = parts.actor;
    let word = word_at(words, 1);
    match keyword {
        Keyword::Pipe | Keyword::Ring => actor.is_start(),
        Keyword::On => words.len() < 2 || !Actor::named(word, parts.rings.len()).is_stranger(),
        Keyword::Entry(_) => actor.is_ring(),
        Keyword::Submit => pending_len(actor, &parts.acts.pending) != 0,
        Keyword::Wait => actor.is_ring() || actor.is_clock(),
        Keyword::Tick => actor.is_clock(),
        Keyword::Armed => actor.is_clock() && may_be_timer(labels, word),
    }
}

/// Whether words are missing.
fn is_short(keyword: Keyword, words: &[&[u8]]) -> bool
    ensures { result ≡ is_short keyword (texts words.now) }
{
    words.len() < 1 + keyword.least_words()
}

/// Whether there is a word too many.
fn is_over(keyword: Keyword, words: &[&[u8]]) -> bool
    ensures { result ≡ is_over (most_words keyword) (texts words.now) }
{
    match keyword.most_words() {
        None => false,
        Some(most) => words.len() > most.saturating_add(1),
    }
}

/// Whether an entry so far has a label.
fn has_label(entries: &[Named], label: &[u8]) -> bool
    ensures { result ≡ list_any (has_label label.now) entries.now }
{
    entries
        .iter()
        .any(|entry| is_same(entry.label.as_bytes(), label))
}

/// Notes the faults of what an entry line declares.
#[tactic(auto, using(crate::proofs::Noting::with_faults_append))]
fn note_declared(faults: &mut Faults, parts: &Parts, label: &[u8], unsubmitted: bool)
    ensures stays { KeepsFault faults.old.least faults.new.least }
    ensures is_first { faults.new.least ≡ with_faults faults.old.least (declare_faults (standing parts.now) label.now unsubmitted) }
{
    faults.note_if(parts.entries.len() >= ENTRIES, Fault::OutOfRange);
    faults.note_if(!is_label(label), Fault::BadLabel);
    faults.note_if(has_label(&parts.entries, label), Fault::DuplicateLabel);
    faults.note_if(unsubmitted, Fault::UnsubmittedEntries);
}

/// Notes the faults of the words of an entry line, where a `raw` line's digits give this entry.
fn note_kind<'a>(
    faults: &mut Faults,
    labels: &Labels<'a>,
    kind: Kind,
    words: &[&'a [u8]],
    given: Option<Sqe>,
)
    ensures stays { KeepsFault faults.old.least faults.new.least }
    ensures is_first { faults.new.least ≡ with_faults faults.old.least (kind_faults (all_stated labels.now.lines.items) kind (texts words.now) given) }
{
    if kind.is_raw() {
        note_raw(faults, given);
    } else {
        note_entry(faults, labels, kind, words);
    }
}

/// Notes the faults of the size of a completion ring, where one is given.
fn note_posts(faults: &mut Faults, words: &[&[u8]])
    ensures stays { KeepsFault faults.old.least faults.new.least }
    ensures is_first { faults.new.least ≡ with_faults faults.old.least (posts_faults (texts words.now)) }
{
    if words.len() > 2 {
        faults.number(word_at(words, 2), 1, POSTS);
    }
}

/// Notes the faults of the words after the first.
#[tactic(auto, using(crate::proofs::Noting::with_faults_append))]
fn note_own<'a>(
    faults: &mut Faults,
    parts: &Parts,
    labels: &Labels<'a>,
    unsubmitted: bool,
    keyword: Keyword,
    line: &Line<'a>,
)
    ensures stays { KeepsFault faults.old.least faults.new.least }
    ensures is_first { faults.new.least ≡ with_faults faults.old.least (own_faults (standing parts.now) (all_stated labels.now.lines.items) unsubmitted keyword (texts line.now.words.items) line.now.given) }
{
    let words = &line.words;
    let word = word_at(words, 1);
    match keyword {
        Keyword::Pipe => {
            faults.number(word, 1, CAPACITY);
            faults.note_if(parts.pipes.len() >= PIPES, Fault::OutOfRange);
        }
        Keyword::Ring => {
            faults.number(word, 1, CELLS);
            let cells = number_or(word, 1, CELLS);
            faults.note_if(!cells.is_power_of_two(), Fault::OutOfRange);
            faults.note_if(parts.rings.len() >= RINGS, Fault::OutOfRange);
            note_posts(faults, words);
        }
        Keyword::On => {}
        Keyword::Submit => faults.note_if(
            is_long_batch(parts.actor, &parts.rings, &parts.acts.pending),
            Fault::OutOfRange,
        ),
        Keyword::Wait | Keyword::Armed => note_label(faults, labels, word),
        Keyword::Tick => faults.number(word, parts.time, TICK),
        Keyword::Entry(kind) => {
            note_declared(faults, parts, word, unsubmitted);
            note_kind(faults, labels, kind, words, line.given);
        }
    }
}

/// Notes the faults of a line with a first word that is known.
#[tactic(auto, using(crate::proofs::Noting::with_faults_append))]
fn note_keyword<'a>(
    faults: &mut Faults,
    parts: &Parts,
    labels: &Labels<'a>,
    unsubmitted: bool,
    keyword: Keyword,
    line: &Line<'a>,
)
    ensures stays { KeepsFault faults.old.least faults.new.least }
    ensures is_first { faults.new.least ≡ with_faults faults.old.least (keyword_faults (standing parts.now) (all_stated labels.now.lines.items) unsubmitted keyword (texts line.now.words.items) line.now.given) }
{
    let words = &line.words;
    let is_short = is_short(keyword, words);
    faults.note_if(!in_place(parts, labels, keyword, words), Fault::OutOfPlace);
    faults.note_if(is_short, Fault::MissingArgument);
    faults.note_if(is_over(keyword, words), Fault::ExtraArgument);
    if !is_short {
        note_own(faults, parts, labels, unsubmitted, keyword, line);
    }
}

/// Notes the faults of the words of a line.
fn note_words<'a>(
    faults: &mut Faults,
    parts: &Parts,
    labels: &Labels<'a>,
    unsubmitted: bool,
    line: &Line<'a>,
)
    ensures stays { KeepsFault faults.old.least faults.new.least }
    ensures is_first { faults.new.least ≡ with_faults faults.old.least (word_faults (standing parts.now) (all_stated labels.now.lines.items) unsubmitted (texts line.now.words.items) line.now.given) }
{
    if line.words.is_empty() {
        return;
    }
    match Keyword::of(word_at(&line.words, 0)) {
        None => faults.note(Fault::UnknownWord),
        Some(keyword) => note_keyword(faults, parts, labels, unsubmitted, keyword, line),
    }
}

/// Notes all faults of the line of a number.
#[tactic(auto, using(crate::proofs::Noting::with_faults_append))]
fn note_line<'a>(
    faults: &mut Faults,
    parts: &Parts,
    outline: &Outline<'a>,
    number: u64,
    line: &Line<'a>,
)
    ensures stays { KeepsFault faults.old.least faults.new.least }
    ensures is_first { faults.new.least ≡ with_faults faults.old.least (faults_here parts.now outline.now number (sentence line.now)) }
{
    faults.note_if(!is_plain(line.text), Fault::NotAscii);
    faults.note_if(number == 1 && !outline.has_ring, Fault::OutOfPlace);
    let unsubmitted = outline.is_unsubmitted(parts.actor, number);
    note_words(faults, parts, &outline.labels, unsubmitted, line);
}

/// The first of the faults of the line of a number in the list of faults, where it has any.
pub fn first_fault<'a>(
    parts: &Parts,
    outline: &Outline<'a>,
    number: u64,
    line: &Line<'a>,
) -> Option<Fault>
    ensures first { MatchOption result
        (faults_here parts.now outline.now number (sentence line.now) ≡ [])
        (IsFirst (faults_here parts.now outline.now number (sentence line.now))) }
    ensures of_script { IfSome result IsOfScript }
{
    let mut faults = Faults::new();
    note_line(&mut faults, parts, outline, number, line);
    faults.least()
}
