//! The lines of a script as they are read.
ghost use Rattle.std.specs.Prelude.{◌≡◌, List, Option, IfOk};
ghost use Rattle.entry.specs.Entry.{Entry};
ghost use Rattle.script_text.specs.{keyword_of, IsGiven, is_raw_line, AreSentences, IsSentence, Sentence, sentence, sentences, texts, word_at};

use crate::keyword::Keyword;
use crate::raw::raw_entry;
use crate::words::{word_at, words_of};
use entry::Sqe;
use std::alloc::{AllocError, Global};

/// A line: its bytes, its words, and where it is a `raw` line the entry that its digits write.
/// Both passes over the text go by these, so the definitions speak of lines as they are read, and not of digits.
#[derive(Drop)]
pub struct Line<'a> {
    pub text: &'a [u8],
    pub words: Vec<&'a [u8]>,
    pub given: Option<Sqe>,
}

/// A line as it is read.
fn read_line<'a>(alloc: Global, text: &'a [u8]) -> Result<Line<'a>, AllocError>
    ensures read { IfOk result (λ line. IsSentence text.now (sentence line)) }
    ensures only { IfOk result (λ line. (s : Sentence) → IsSentence text.now s → sentence line ≡ s) }
{
    let words = words_of(alloc, text)?;
    let given = given_of(alloc, &words)?;
    Ok(Line { text, words, given })
}

/// The lines of a script as they are read.
pub fn read_lines<'a>(alloc: Global, parts: &[&'a [u8]]) -> Result<Vec<Line<'a>>, AllocError>
    ensures read { IfOk result (λ lines. AreSentences (texts parts.now) (sentences lines.items)) }
    ensures only { IfOk result (λ lines. (ss : List Sentence) → AreSentences (texts parts.now) ss → sentences lines.items ≡ ss) }
{
    let mut lines = Vec::new(alloc);
    for text in parts {
        lines.push(read_line(alloc, text)?)?;
    }
    Ok(lines)
}

/// The entry that the digits of a line give, if it is a `raw` line.
fn given_of(alloc: Global, words: &[&[u8]]) -> Result<Option<Sqe>, AllocError>
    ensures entry { IfOk result (λ given. IsGiven (keyword_of (word_at (texts words.now) 0)) (texts words.now) given) }
    ensures only { IfOk result (λ given. (other : Option Entry) → IsGiven (keyword_of (word_at (texts words.now) 0)) (texts words.now) other → given ≡ other) }
{
    if is_raw_line(Keyword::of(word_at(words, 0))) {
        raw_entry(alloc, word_at(words, 2))
    } else {
        Ok(None)
    }
}

/// Whether a line with this first word is a `raw` line.
fn is_raw_line(keyword: Option<Keyword>) -> bool
    ensures { result ≡ is_raw_line keyword }
{
    match keyword {
        Some(Keyword::Entry(kind)) => kind.is_raw(),
        _ => false,
    }
}
