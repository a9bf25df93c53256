//! Words of a line.

/// Returns the first word, and what is behind the space after it.
pub(crate) fn first_word(text: &str) -> (&str, &str) {
    match text.split_once(' ') {
        Some((word, rest)) => (word, rest),
        None => (text, ""),
    }
}

/// Returns the part of a word in front of a mark; all of it where it has none.
pub(crate) fn before(word: &str, mark: char) -> &str {
    match word.split_once(mark) {
        Some((front, _)) => front,
        None => word,
    }
}
