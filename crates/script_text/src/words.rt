//! The lines of a text, and the words of a line.
ghost use Rattle.std.specs.Prelude.{◌≡◌, IfOk};
ghost use Rattle.script_text.specs.TextWords.{is_comment, is_plain, is_same, said, text_lines, texts, without_end, word_at, words_in};

use std::alloc::{AllocError, Global};

/// Whether two words are the same bytes.
pub fn is_same(word: &[u8], other: &[u8]) -> bool
    ensures { result ≡ is_same word.now other.now }
{
    word == other
}

/// A text without the line feed that ends its last line, if one does.
fn without_end(bytes: &[u8]) -> &[u8]
    ensures { result.now ≡ without_end bytes.now }
{
    match bytes.strip_suffix(b"\n") {
        Some(text) => text,
        None => bytes,
    }
}

/// The lines of a text: what stands between its line feeds. The last line may end without one.
pub fn lines_of(alloc: Global, bytes: &[u8]) -> Result<Vec<&[u8]>, AllocError>
    ensures { IfOk result (λ lines. texts lines.items ≡ text_lines bytes.now) }
{
    without_end(bytes)
        .split(|byte| *byte == b'\n')
        .collect(alloc)
}

/// What stands between the spaces of a line.
fn words_in(alloc: Global, line: &[u8]) -> Result<Vec<&[u8]>, AllocError>
    ensures { IfOk result (λ words. texts words.items ≡ words_in line.now) }
{
    line.split(|byte| *byte == b' ')
        .filter(|word| !word.is_empty())
        .collect(alloc)
}

/// Whether these words are a comment: the first begins with `#`.
fn is_comment(words: &[&[u8]]) -> bool
    ensures { result ≡ is_comment (texts words.now) }
{
    match words {
        [] => false,
        [first, ..] => first.starts_with(b"#"),
    }
}

/// The words of a line that says something, and none of a line that is skipped.
pub fn words_of(alloc: Global, line: &[u8]) -> Result<Vec<&[u8]>, AllocError>
    ensures { IfOk result (λ words. texts words.items ≡ said line.now) }
{
    let words = words_in(alloc, line)?;
    if is_comment(&words) {
        return Ok(Vec::new(alloc));
    }
    Ok(words)
}

/// The word at a place of a line, or no bytes where there is none.
pub fn word_at<'a>(words: &[&'a [u8]], place: usize) -> &'a [u8]
    ensures { result.now ≡ word_at (texts words.now) place }
{
    match words.get(place) {
        Some(word) => *word,
        None => b"",
    }
}

/// Whether each byte of a line may stand in a script.
pub fn is_plain(line: &[u8]) -> bool
    ensures { result ≡ is_plain line.now }
{
    line.iter().all(|byte| 0x20 <= *byte && *byte <= 0x7e)
}
