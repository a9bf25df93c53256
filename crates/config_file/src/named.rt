//! Which configuration file a command line names.

ghost use Rattle.std.specs.Prelude.{◌≡◌, map, option_map};
ghost use Rattle.clap.specs.Lexer.{name_and_value};
ghost use Rattle.config_file.specs.Named.{config_in, named_in, is_given, gives, is_option, value_of};

use std::convert::AsStr;

/// Returns the name of the configuration file that the words behind `run` give, if they give one.
pub fn config_named<T: AsStr>(words: &[T]) -> Option<&str>
    ensures { option_map (λ name. name.now) result ≡ config_in (map T.text words.now) }
{
    match words {
        [_, command, rest @ ..] if command.as_str() == "run" => first_named(rest),
        _ => None,
    }
}

/// Returns the value of the first `--config`.
fn first_named<T: AsStr>(words: &[T]) -> Option<&str>
    ensures { option_map (λ name. name.now) result ≡ named_in (map T.text words.now) }
{
    for place in 0..words.len() {
        let (option, value) = split_value(words[place].as_str());
        if option == "--config" {
            return value_of(value, &words[place + 1..]);
        }
    }
    None
}

/// Returns the value of an option: what stands behind `=`, or else the next word.
fn value_of<'a, T: AsStr>(value: Option<&'a str>, words: &'a [T]) -> Option<&'a str>
    ensures { option_map (λ name. name.now) result ≡ value_of (option_map (λ text. text.now) value.entry) (map T.text words.now) }
{
    match (value, words) {
        (Some(value), _) => Some(value),
        (None, [word, ..]) => Some(word.as_str()),
        (None, []) => None,
    }
}

/// Returns whether the words of a command line give the option of this name.
pub(crate) fn is_given<T: AsStr>(words: &[T], name: &str) -> bool
    ensures { result ≡ is_given (map T.text words.now) name.now }
{
    for word in words {
        if gives(word.as_str(), name) {
            return true;
        }
    }
    false
}

/// Returns whether a word is `--NAME`, or begins with `--NAME=`.
fn gives(word: &str, name: &str) -> bool
    ensures { result ≡ gives name.now word.now }
{
    is_option(split_value(word).0, name)
}

/// Returns whether a text is this name behind two dashes.
fn is_option(text: &str, name: &str) -> bool
    ensures { result ≡ is_option name.now text.now }
{
    match text.as_bytes().strip_prefix(b"--") {
        Some(rest) => rest == name.as_bytes(),
        None => false,
    }
}

/// Returns what stands before the first `=`, and what stands behind it if there is one.
fn split_value(text: &str) -> (&str, Option<&str>)
    ensures { (result.0.now, option_map (λ value. value.now) result.1) ≡ name_and_value text.now }
{
    match text.split_once('=') {
        Some((name, value)) => (name, Some(value)),
        None => (text, None),
    }
}
