//! Text in a picture.

ghost use Rattle.std.specs.Prelude.{◌≡◌, is_some};
ghost use Rattle.schedule_chart.specs.Escaping.{is_special};

use std::fmt;

/// A text as it has to be written in XML, cut after so many characters.
#[derive(Clone, Copy)]
pub(crate) struct Escaped<'a> {
    pub(crate) text: &'a str,
    pub(crate) most: usize,
}

impl fmt::Display for Escaped<'_> {
    fn fmt<W: fmt::Write>(&self, f: &mut fmt::Formatter<W>) -> fmt::Result {
        for (place, letter) in self.text.chars().enumerate() {
            if place == self.most {
                return f.write_str("…");
            }
            write_letter(letter, f)?;
        }
        Ok(())
    }
}

/// Writes a letter.
fn write_letter<W: fmt::Write>(letter: char, f: &mut fmt::Formatter<W>) -> fmt::Result {
    match in_place_of(letter) {
        Some(text) => f.write_str(text),
        None => f.write_char(letter),
    }
}

/// Returns what is written in the place of a letter that can't be written as it is.
fn in_place_of(letter: char) -> Option<&'static str>
    ensures { is_some result ≡ is_special letter }
{
    match letter {
        '<' => Some("&lt;"),
        '>' => Some("&gt;"),
        '&' => Some("&amp;"),
        '"' => Some("&quot;"),
        // (XML has no such characters)
        '\0'..='\u{1f}' | '\u{fffe}' | '\u{ffff}' => Some("?"),
        _ => None,
    }
}
