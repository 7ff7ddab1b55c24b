//! Whose lines are read.
ghost use Rattle.std.specs.Prelude.{◌≡◌, Some};
ghost use Rattle.script_text.specs.{actor_with, is_clock, is_ring, is_start, is_stranger, named_actor, texts};
ghost use Rattle.script_text.specs.declared.keyword.Keyword.TheVariants.{On};

use crate::words::{is_same, word_at};
use text::number_of;

/// Who does what a line says.
#[derive(Clone, Copy)]
pub enum Actor {
    /// No actor yet: the lines before the first `on`.
    Start,
    /// A declared ring.
    Ring(usize),
    Clock,
    /// No actor that is declared.
    Stranger,
}

impl Actor {
    /// The actor that the word after `on` names, where this many rings are declared.
    pub fn named(word: &[u8], rings: usize) -> Actor
        ensures { result ≡ named_actor word.now rings }
    {
        if is_same(word, b"clock") {
            return Actor::Clock;
        }
        match number_of(word) {
            Some(ring) if ring < rings as u64 => Actor::Ring(ring as usize),
            _ => Actor::Stranger,
        }
    }

    /// Whose lines come after an `on` line of these words, where this many rings are declared.
    pub fn after_on(self, words: &[&[u8]], rings: usize) -> Actor
        ensures { result ≡ actor_with (Some On) (texts words.now) rings self }
    {
        if words.len() > 1 {
            Actor::named(word_at(words, 1), rings)
        } else {
            self
        }
    }

    pub fn is_start(self) -> bool
        ensures { result ≡ is_start self }
    {
        matches!(self, Actor::Start)
    }

    pub fn is_ring(self) -> bool
        ensures { result ≡ is_ring self }
    {
        matches!(self, Actor::Ring(_))
    }

    pub fn is_clock(self) -> bool
        ensures { result ≡ is_clock self }
    {
        matches!(self, Actor::Clock)
    }

    pub fn is_stranger(self) -> bool
        ensures { result ≡ is_stranger self }
    {
        matches!(self, Actor::Stranger)
    }
}
