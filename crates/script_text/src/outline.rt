//! What the lines of a script declare, whatever is wrong with them.
ghost use Rattle.std.specs.Prelude.{◌≡◌, ◌<◌, ℕ, [], Some, reverse, slice_get, IfOk, OnOk};
ghost use Rattle.script_text.specs.{is_same_actor, last_submit_with, stated_with, all_stated, Notes, Outlines, is_unsubmitted, last_of, sentence, sentences, texts};

use crate::actor::Actor;
use crate::declared_line::Declared;
use crate::keyword::{Keyword, Kind};
use crate::labels::Labels;
use crate::line::Line;
use crate::options::user_data_of;
use crate::words::word_at;
use limits::RINGS;
use std::alloc::{AllocError, Global};

/// The entry lines of a script in order, where each ring submits last, how many rings are declared, and whether any
/// line declares one. While the lines are read, whose lines they are.
/// A line with a fault declares what it says all the same: a faulty `ring` is a ring, a faulty `submit` submits, an `on` with a word too
/// many names its actor. So one slip is reported once.
#[derive(Drop)]
pub struct Outline<'a> {
    pub labels: Labels<'a>,
    pub last_submits: [u64; RINGS],
    pub rings: usize,
    pub has_ring: bool,
    pub actor: Actor,
}

impl<'a> Outline<'a> {
    /// What the lines of a script declare.
    pub fn of(alloc: Global, lines: &[Line<'a>]) -> Result<Outline<'a>, AllocError>
        ensures { IfOk result (Outlines (reverse (sentences lines.now))) }
    {
        let mut outline = Outline {
            labels: Labels::new(alloc),
            last_submits: [0; RINGS],
            rings: 0,
            has_ring: false,
            actor: Actor::Start,
        };
        outline.take_lines(alloc, lines)?;
        Ok(outline)
    }

    fn take_lines(&mut self, alloc: Global, lines: &[Line<'a>]) -> Result<(), AllocError>
        requires { Outlines [] self.old }
        ensures { OnOk result (Outlines (reverse (sentences lines.now)) self.new) }
    {
        let mut number = 0u64;
        for line in lines {
            number = number.saturating_add(1);
            self.take(alloc, number, line)?;
        }
        Ok(())
    }

    /// Takes the line of a number in.
    fn take(&mut self, alloc: Global, number: u64, line: &Line<'a>) -> Result<(), AllocError>
        requires { self.old.rings < number }
        ensures { OnOk result (Notes (sentence line.now) number self.old self.new) }
    {
        match Keyword::of(word_at(&line.words, 0)) {
            Some(Keyword::On) => self.actor = self.actor.after_on(&line.words, self.rings),
            Some(Keyword::Ring) => {
                self.has_ring = true;
                self.rings = self.rings.saturating_add(1);
            }
            Some(Keyword::Submit) => self.submitted(number),
            Some(Keyword::Entry(kind)) => return self.declare(kind, line),
            _ => {}
        }
        Ok(())
    }

    /// Takes a `submit` line in.
    fn submitted(&mut self, number: u64)
        ensures submits { (ring : ℕ) → ring < RINGS → slice_get self.new.last_submits ring
            ≡ Some (last_submit_with (Some Keyword.Submit) (is_same_actor (Actor.Ring ring) self.old.actor) number (last_of (slice_get self.old.last_submits ring))) }
        ensures stated { self.new.labels ≡ self.old.labels }
        ensures rings { self.new.rings ≡ self.old.rings }
        ensures has_ring { self.new.has_ring ≡ self.old.has_ring }
        ensures actor { self.new.actor ≡ self.old.actor }
    {
        if let Actor::Ring(ring) = self.actor {
            if ring < RINGS {
                self.last_submits[ring] = number;
            }
        }
    }

    /// Takes an entry line in.
    fn declare(&mut self, kind: Kind, line: &Line<'a>) -> Result<(), AllocError>
        ensures stated { OnOk result (all_stated self.new.labels.lines.items ≡ stated_with (Some (Keyword.Entry kind)) (texts line.now.words.items) line.now.given (all_stated self.old.labels.lines.items)) }
        ensures submits { self.new.last_submits ≡ self.old.last_submits }
        ensures rings { self.new.rings ≡ self.old.rings }
        ensures has_ring { self.new.has_ring ≡ self.old.has_ring }
        ensures actor { self.new.actor ≡ self.old.actor }
    {
        if line.words.len() < 2 {
            return Ok(());
        }
        let number = (self.labels.lines.len() as u64).saturating_add(1);
        self.labels.push(Declared {
            label: word_at(&line.words, 1),
            kind,
            user_data: user_data_of(kind, &line.words, line.given, number),
        })?;
        Ok(())
    }

    /// Whether no `submit` of the actor stands on a line after this one.
    pub fn is_unsubmitted(&self, actor: Actor, line: u64) -> bool
        ensures { result ≡ is_unsubmitted actor self.now.last_submits line }
    {
        match actor {
            Actor::Ring(ring) => match self.last_submits.get(ring) {
                Some(last) => *last < line,
                None => true,
            },
            _ => false,
        }
    }
}
