//! The words of a line, read one after another.
ghost use Rattle.std.specs.Prelude.{◌≡◌, IsOk, IsTrue, IsSomeAnd, true, false, None};

use crate::printed::Slip;
use hex::FromHex;
use history::Req;
use std::alloc::{AllocError, Global};
use std::str::FromStr;
use text::bytes_of;

/// What is left of a line, whose words have one space between them. Where a word is missing, or isn't of the kind that is asked
/// for, the line is bad, and stays so; what stands for the word says nothing.
#[derive(Drop)]
pub struct Words<'a> {
    pub alloc: Global,
    /// The words that are still to be read, if any.
    pub rest: Option<&'a str>,
    pub is_bad: bool,
}

impl<'a> Words<'a> {
    /// All words of a line.
    pub fn of(alloc: Global, line: &'a str) -> Words<'a>
        ensures rest { IsSomeAnd result.rest (λ rest. rest.now ≡ line.now) }
        ensures good { result.is_bad ≡ false }
    {
        Words {
            alloc,
            rest: Some(line),
            is_bad: false,
        }
    }

    /// The line is bad. Gives what stands for its word.
    pub fn bad<T>(&mut self, stand_in: T) -> T
        ensures stand_in { result ≡ stand_in }
        ensures noted { self.new.is_bad ≡ true }
    {
        self.is_bad = true;
        stand_in
    }

    /// The next word, if there is one.
    pub fn next_word(&mut self) -> Option<&'a str>
        ensures kept { self.new.is_bad ≡ self.old.is_bad }
        ensures none { self.old.rest ≡ None → result ≡ None }
    {
        let line = self.rest?;
        match line.split_once(' ') {
            Some((word, rest)) => {
                self.rest = Some(rest);
                Some(word)
            }
            None => {
                self.rest = None;
                Some(line)
            }
        }
    }

    /// The next word.
    pub fn word(&mut self) -> &'a str
        ensures kept { IsTrue self.old.is_bad → IsTrue self.new.is_bad }
        ensures missing { self.old.rest ≡ None → IsTrue self.new.is_bad }
    {
        match self.next_word() {
            Some(word) => word,
            None => self.bad(""),
        }
    }

    /// The next word is this one.
    pub fn expect(&mut self, wanted: &str)
        ensures kept { IsTrue self.old.is_bad → IsTrue self.new.is_bad }
        ensures missing { self.old.rest ≡ None → IsTrue self.new.is_bad }
    {
        if self.word() != wanted {
            self.bad(());
        }
    }

    /// Takes the next word where it is this one.
    pub fn option(&mut self, wanted: &str) -> bool
        ensures kept { self.new.is_bad ≡ self.old.is_bad }
        ensures other { result ≡ false → self.new.rest ≡ self.old.rest }
    {
        let before = self.rest;
        let is_wanted = self.next_word() == Some(wanted);
        if !is_wanted {
            self.rest = before;
        }
        is_wanted
    }

    /// The next word as a number of this type, in decimal, without a zero or a plus sign in front.
    pub fn number<N: FromStr + Default>(&mut self) -> N
    where
        N::Err: Drop,
        ensures kept { IsTrue self.old.is_bad → IsTrue self.new.is_bad }
        ensures missing { self.old.rest ≡ None → IsTrue self.new.is_bad }
    {
        match number_of(self.word()) {
            Some(number) => number,
            None => self.bad(N::default()),
        }
    }

    /// The next word as a request: `0.3` is request 3 of ring 0.
    pub fn req(&mut self) -> Req
        ensures kept { IsTrue self.old.is_bad → IsTrue self.new.is_bad }
        ensures missing { self.old.rest ≡ None → IsTrue self.new.is_bad }
    {
        let (ring, k) = self.word().split_once('.').unwrap_or(("", ""));
        match (number_of(ring), number_of(k)) {
            (Some(ring), Some(k)) => Req { ring, k },
            _ => self.bad(Req { ring: 0, k: 0 }),
        }
    }

    /// The next word as bytes, between quotes or by two lower-case hexadecimal digits each: none where there is no word.
    pub fn bytes(&mut self) -> Result<Vec<u8>, AllocError>
        ensures { IsTrue self.old.is_bad → IsTrue self.new.is_bad }
    {
        let word = self.next_word().unwrap_or("");
        if let [b'"', letters @ .., b'"'] = word.as_bytes() {
            return Vec::from_slice(self.alloc, letters);
        }
        match bytes_of(self.alloc, word.as_bytes())? {
            Some(bytes) => Ok(bytes),
            None => Ok(self.bad(Vec::new(self.alloc))),
        }
    }

    /// The next word as the digits of this many bytes.
    pub fn array<const N: usize>(&mut self) -> [u8; N]
        ensures kept { IsTrue self.old.is_bad → IsTrue self.new.is_bad }
        ensures missing { self.old.rest ≡ None → IsTrue self.new.is_bad }
    {
        match <[u8; N]>::from_hex(self.word()) {
            Ok(bytes) => bytes,
            Err(_) => self.bad([0; N]),
        }
    }

    /// The next word as the name of a pass.
    pub fn name(&mut self) -> Name
        ensures kept { IsTrue self.old.is_bad → IsTrue self.new.is_bad }
        ensures missing { self.old.rest ≡ None → IsTrue self.new.is_bad }
    {
        let word = self.word();
        let submitter = word.strip_prefix("submitter").and_then(number_of);
        let worker = word.strip_prefix("worker").and_then(number_of);
        match (submitter, worker) {
            (Some(ring), _) => Name::Submitter(ring),
            (_, Some(number)) => Name::Worker(number),
            _ if word == "poller" => Name::Poller,
            _ => self.bad(Name::Poller),
        }
    }

    /// All that is left of the line.
    pub fn left(&mut self) -> &'a str
        ensures kept { IsTrue self.old.is_bad → IsTrue self.new.is_bad }
        ensures missing { self.old.rest ≡ None → IsTrue self.new.is_bad }
    {
        match self.rest.take() {
            Some(rest) => rest,
            None => self.word(),
        }
    }

    /// All words were read, and the line isn't bad.
    pub fn end(&self) -> Result<(), Slip>
        ensures read { IsOk result → self.now.rest ≡ None }
        ensures good { IsOk result → self.now.is_bad ≡ false }
        ensures whole { self.now.rest ≡ None → self.now.is_bad ≡ false → IsOk result }
    {
        if self.rest.is_none() && !self.is_bad {
            Ok(())
        } else {
            Err(Slip::BadLine)
        }
    }
}

/// A pass, as a line names it: `poller`, `submitter0`, `worker0`.
#[derive(Clone, Copy)]
pub enum Name {
    Poller,
    Submitter(usize),
    Worker(usize),
}

/// The number that a word writes, in decimal, without a zero or a plus sign in front.
fn number_of<N: FromStr>(word: &str) -> Option<N>
where
    N::Err: Drop,
{
    if word.starts_with('+') || (word.starts_with('0') && word.len() > 1) {
        return None;
    }
    word.parse().ok()
}
