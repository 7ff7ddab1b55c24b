//! The first word of a line, and what it asks for.
ghost use Rattle.std.specs.Prelude.{◌≡◌, ◌≤◌};
ghost use Rattle.script_text.specs.Keywords.{arguments_of, is_raw, is_timer, keyword_of, kind_of, least_words, most_words};

use crate::words::is_same;

/// The kind of an entry line.
#[derive(Clone, Copy)]
pub enum Kind {
    Nop,
    Read,
    Write,
    Close,
    Poll,
    Timeout,
    LinkTimeout,
    Cancel,
    Remove,
    Splice,
    Raw,
}

/// The first word of a line.
#[derive(Clone, Copy)]
pub enum Keyword {
    Pipe,
    Ring,
    On,
    Submit,
    Wait,
    Tick,
    Armed,
    Entry(Kind),
}

impl Kind {
    /// The kind of the entry lines that begin with a word.
    #[tactic(auto, unfolding(crate::specs::Keywords::kind_of))]
    fn of(word: &[u8]) -> Option<Kind>
        ensures { result ≡ kind_of word.now }
    {
        if is_same(word, b"nop") {
            Some(Kind::Nop)
        } else if is_same(word, b"read") {
            Some(Kind::Read)
        } else if is_same(word, b"write") {
            Some(Kind::Write)
        } else if is_same(word, b"close") {
            Some(Kind::Close)
        } else if is_same(word, b"poll") {
            Some(Kind::Poll)
        } else if is_same(word, b"timeout") {
            Some(Kind::Timeout)
        } else if is_same(word, b"link-timeout") {
            Some(Kind::LinkTimeout)
        } else if is_same(word, b"cancel") {
            Some(Kind::Cancel)
        } else if is_same(word, b"remove") {
            Some(Kind::Remove)
        } else if is_same(word, b"splice") {
            Some(Kind::Splice)
        } else if is_same(word, b"raw") {
            Some(Kind::Raw)
        } else {
            None
        }
    }

    /// How many words an entry line has after its first, options left out.
    pub fn arguments(self) -> usize
        ensures count { result ≡ arguments_of self }
        ensures few { result ≤ 4 }
    {
        match self {
            Kind::Nop => 1,
            Kind::Close
            | Kind::Timeout
            | Kind::LinkTimeout
            | Kind::Cancel
            | Kind::Remove
            | Kind::Raw => 2,
            Kind::Read | Kind::Write | Kind::Poll => 3,
            Kind::Splice => 4,
        }
    }

    /// Whether such a line gives its entry as bytes.
    pub fn is_raw(self) -> bool
        ensures { result ≡ is_raw self }
    {
        matches!(self, Kind::Raw)
    }

    /// Whether such a line has a timer, which `armed` can wait for.
    pub fn is_timer(self) -> bool
        ensures { result ≡ is_timer self }
    {
        matches!(self, Kind::Timeout | Kind::LinkTimeout)
    }
}

impl Keyword {
    /// The keyword that a word is.
    #[tactic(auto, unfolding(crate::specs::Keywords::keyword_of))]
    pub fn of(word: &[u8]) -> Option<Keyword>
        ensures { result ≡ keyword_of word.now }
    {
        if is_same(word, b"pipe") {
            Some(Keyword::Pipe)
        } else if is_same(word, b"ring") {
            Some(Keyword::Ring)
        } else if is_same(word, b"on") {
            Some(Keyword::On)
        } else if is_same(word, b"submit") {
            Some(Keyword::Submit)
        } else if is_same(word, b"wait") {
            Some(Keyword::Wait)
        } else if is_same(word, b"tick") {
            Some(Keyword::Tick)
        } else if is_same(word, b"armed") {
            Some(Keyword::Armed)
        } else {
            match Kind::of(word) {
                Some(kind) => Some(Keyword::Entry(kind)),
                None => None,
            }
        }
    }

    /// How many words have to stand after it.
    pub fn least_words(self) -> usize
        ensures { result ≡ least_words self }
    {
        match self {
            Keyword::Submit => 0,
            Keyword::Entry(kind) => kind.arguments(),
            _ => 1,
        }
    }

    /// How many words may stand after it. None for a line with options.
    pub fn most_words(self) -> Option<usize>
        ensures { result ≡ most_words self }
    {
        match self {
            Keyword::Submit => Some(0),
            Keyword::Ring | Keyword::Entry(Kind::Raw) => Some(2),
            Keyword::Entry(_) => None,
            _ => Some(1),
        }
    }
}
