//! Words, and what separates them.

use std::alloc::{AllocError, Global};

/// The words of a text, with this byte between each and the next.
pub(crate) fn words_between(
    alloc: Global,
    text: &[u8],
    separator: u8,
) -> Result<Vec<&[u8]>, AllocError> {
    text.split(|byte| *byte == separator).collect(alloc)
}

/// Whether the word is this one. It is asked of a word as a whole: a pattern such as `b"vote"` is
/// proved byte by byte.
pub(crate) fn is_word(word: &[u8], wanted: &str) -> bool {
    word == wanted.as_bytes()
}

/// Returns whether a line says nothing: it is empty, or begins with `#`.
pub(crate) fn is_silent(line: &[u8]) -> bool {
    matches!(line, [] | [b'#', ..])
}
