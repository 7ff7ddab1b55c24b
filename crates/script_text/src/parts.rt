//! The parts of a script, as its lines give them.
ghost use Rattle.std.specs.Prelude.{◌≡◌, ◌↔◌, List, [], IsSome, IsTrue, Some, IfOk, IfSome, OnOk};
ghost use Rattle.script.specs.Rules.{is_label, keeps_rules};
ghost use Rattle.script_text.specs.{entered_line, place_in, Stated, all_stated, line_buffer, line_entry, posts_in, Fits, IsEven, Stands, Takes, entered, first_of, sentence, texts, word_at};

use crate::actor::Actor;
use crate::acts::Acts;
use crate::entry_line::{buffer_of, entry_of, number_or};
use crate::keyword::{Keyword, Kind};
use crate::labels::Labels;
use crate::line::Line;
use crate::raw::raw_buffer;
use crate::words::word_at;
use entry::Sqe;
use limits::{CAPACITY, CELLS, POSTS, TICK};
use script::{Act, Named, Script};
use std::alloc::{AllocError, Global};

/// The parts of a script so far, and whose lines they are.
#[derive(Drop)]
pub struct Parts {
    pub actor: Actor,
    pub time: u32,
    pub pipes: Vec<u32>,
    pub rings: Vec<(u32, Option<u32>)>,
    pub entries: Vec<Named>,
    pub acts: Acts,
}

impl Parts {
    /// No parts.
    pub fn new(alloc: Global) -> Parts
        ensures { (lines : List Stated) → Stands lines [] result }
    {
        Parts {
            actor: Actor::Start,
            time: 0,
            pipes: Vec::new(alloc),
            rings: Vec::new(alloc),
            entries: Vec::new(alloc),
            acts: Acts {
                by_ring: Vec::new(alloc),
                clock: Vec::new(alloc),
                pending: Vec::new(alloc),
            },
        }
    }

    /// The script of these parts.
    pub fn script(self, alloc: Global) -> Result<Option<Script>, AllocError>
        ensures kept { IfOk result (λ made. IsSome made ↔ IsTrue (keeps_rules self.pipes.items self.rings.items self.entries.items self.acts.by_ring.items self.acts.clock.items)) }
        ensures parts { IfOk result (λ made. IfSome made (λ script. (script.pipes ≡ self.pipes) × (script.rings ≡ self.rings) × (script.entries ≡ self.entries) × (script.acts ≡ self.acts.by_ring) × (script.clock ≡ self.acts.clock))) }
    {
        let Parts {
            actor: _,
            time: _,
            pipes,
            rings,
            entries,
            acts,
        } = self;
        let Acts {
            by_ring,
            clock,
            pending: _,
        } = acts;
        Script::new(alloc, pipes, rings, entries, by_ring, clock)
    }

    /// Takes a line without a fault in.
    pub fn take<'a>(
        &mut self,
        alloc: Global,
        labels: &Labels<'a>,
        line: &Line<'a>,
    ) -> Result<(), AllocError>
        requires even { IsEven self.old }
        requires fits { Fits (first_of (sentence line.now)) (texts line.now.words.items) self.old }
        ensures { OnOk result (Takes (all_stated labels.now.lines.items) (first_of (sentence line.now)) (sentence line.now) self.old self.new) }
    {
        let word = word_at(&line.words, 1);
        match Keyword::of(word_at(&line.words, 0)) {
            Some(Keyword::Pipe) => self.pipes.push(number_or(word, 1, CAPACITY))?,
            Some(Keyword::Ring) => {
                let cells = number_or(word, 1, CELLS);
                self.rings.push((cells, posts_in(&line.words)))?;
                self.acts.push_ring(alloc)?;
            }
            Some(Keyword::On) => {
                self.actor = self.actor.after_on(&line.words, self.rings.len());
            }
            Some(Keyword::Submit) => self.acts.submit(alloc, self.actor)?,
            Some(Keyword::Wait) => {
                self.acts
                    .push(self.actor, Act::Wait(place_in(labels, word)))?;
            }
            Some(Keyword::Armed) => {
                self.acts
                    .push(self.actor, Act::Armed(place_in(labels, word)))?;
            }
            Some(Keyword::Tick) => {
                self.time = number_or(word, 0, TICK);
                self.acts.push(self.actor, Act::Tick(self.time))?;
            }
            Some(Keyword::Entry(kind)) => self.push_line(alloc, labels, kind, line)?,
            None => {}
        }
        Ok(())
    }

    /// Takes an entry line in.
    fn push_line<'a>(
        &mut self,
        alloc: Global,
        labels: &Labels<'a>,
        kind: Kind,
        line: &Line<'a>,
    ) -> Result<(), AllocError>
        requires even { IsEven self.old }
        requires fits { Fits (Some (Keyword.Entry kind)) (texts line.now.words.items) self.old }
        ensures { OnOk result (Takes (all_stated labels.now.lines.items) (Some (Keyword.Entry kind)) (sentence line.now) self.old self.new) }
    {
        let place = self.entries.len();
        let named = named_of(alloc, labels, kind, line, place as u64 + 1)?;
        self.entries.push(named)?;
        self.acts.push_pending(self.actor, place as u32)?;
        Ok(())
    }
}

/// The entry of an entry line, the file's `number`-th, with its label and its buffer.
fn named_of<'a>(
    alloc: Global,
    labels: &Labels<'a>,
    kind: Kind,
    line: &Line<'a>,
    number: u64,
) -> Result<Named, AllocError>
    requires { IsTrue (is_label (word_at (texts line.now.words.items) 1)) }
    ensures { IfOk result (λ named. entered named ≡ entered_line (all_stated labels.now.lines.items) kind (texts line.now.words.items) line.now.given number) }
{
    let sqe = sqe_of(labels, kind, &line.words, number, line.given);
    let buffer = line_buffer(alloc, kind, &line.words, sqe)?;
    let label = String::from_utf8_lossy(alloc, word_at(&line.words, 1))?;
    Ok(Named { label, sqe, buffer })
}

/// The entry of a line, the file's `number`-th. The digits of a `raw` line give this one.
fn sqe_of<'a>(
    labels: &Labels<'a>,
    kind: Kind,
    words: &[&'a [u8]],
    number: u64,
    given: Option<Sqe>,
) -> Sqe
    ensures { result ≡ line_entry (all_stated labels.now.lines.items) kind (texts words.now) number given }
{
    if kind.is_raw() {
        given.unwrap_or(prep::nop())
    } else {
        entry_of(labels, kind, words, number)
    }
}

/// The size of a completion ring, where one is given.
fn posts_in(words: &[&[u8]]) -> Option<u32>
    ensures { result ≡ posts_in (texts words.now) }
{
    if words.len() > 2 {
        Some(number_or(word_at(words, 2), 1, POSTS))
    } else {
        None
    }
}

/// The place of the entry that a label names.
fn place_in<'a>(labels: &Labels<'a>, label: &'a [u8]) -> u32
    ensures { result ≡ place_in (all_stated labels.now.lines.items) label.now }
{
    match labels.place_of(label) {
        Some(place) => u32::try_from(place).unwrap_or(0),
        None => 0,
    }
}

/// The buffer of an entry line with this entry.
fn line_buffer(alloc: Global, kind: Kind, words: &[&[u8]], sqe: Sqe) -> Result<Vec<u8>, AllocError>
    ensures { IfOk result (λ buffer. buffer.items ≡ line_buffer kind (texts words.now) sqe) }
{
    if kind.is_raw() {
        raw_buffer(alloc, sqe)
    } else {
        buffer_of(alloc, kind, words)
    }
}
