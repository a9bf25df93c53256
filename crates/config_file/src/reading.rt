//! The words that a configuration file gives.

ghost use Rattle.std.specs.Prelude.{◌≡◌, ◌++◌, IfOk, IfErr, IsSome, None, map, string_bytes};
ghost use Rattle.toml.specs.Errors.{IsMemory};
ghost use Rattle.toml.specs.Parse.{parse_document};
ghost use Rattle.config_file.specs.Failures.{IsFaultOf, IsOfEntries};

use crate::entry::{OptionWord, is_value};
use crate::fault::ConfigFault;
use crate::named::is_given;
use key_files::memory_or;
use node_settings::{ConfigTrouble, Failure, is_run_option};
use std::alloc::{AllocError, Global};
use std::convert::AsStr;
use std::fs;
use std::rt::Files;
use toml::de::Error;
use toml::{Table, Value};

/// The option that names a configuration file, which no such file may have.
const CONFIG: &str = "config";

/// Returns the words that the configuration file of this name gives beside those of the command line.
pub fn read_config<R: Files + AllocGlobal, T: AsStr>(
    rt: &R,
    name: &str,
    given: &[T],
) -> Result<Vec<String>, Failure> {
    match fs::read_to_string(rt, name) {
        Ok(text) => Ok(words_of(rt.alloc(), &text, given)?),
        Err(error) => Err(memory_or(&error, Failure::Config(ConfigTrouble::Unreadable))),
    }
}

/// Returns the words that the text of a configuration file gives beside those of the command line: `--NAME=VALUE` for each
/// of its entries, in order of their names, that isn't given there.
pub fn words_of<T: AsStr>(
    alloc: Global,
    text: &str,
    given: &[T],
) -> Result<Vec<String>, ConfigFault>
    // A text that isn't TOML gives no words.
    ensures read { IfOk result (λ words. IsSome (parse_document text.now)) }
    ensures fault { IfErr result (IsFaultOf text.now) }
{
    let table = table_of(alloc, text)?;
    words_in(alloc, &table, given)
}

/// Returns the words that entries give beside those of the command line.
fn words_in<T: AsStr>(alloc: Global, table: &Table, given: &[T]) -> Result<Vec<String>, ConfigFault>
    ensures { IfErr result IsOfEntries }
{
    let mut words = Vec::with_capacity(alloc, table.len())?;
    for (name, value) in table.iter() {
        check(name, value)?;
        if !is_given(given, name) {
            words.push(word_of(alloc, name, value)?)?;
        }
    }
    Ok(words)
}

/// Returns the entries of a text.
fn table_of(alloc: Global, text: &str) -> Result<Table, ConfigFault>
    ensures read { IfOk result (λ table. IsSome (parse_document text.now)) }
    ensures fault { IfErr result (IsFaultOf text.now) }
{
    match toml::table_from_str(alloc, text) {
        Ok(table) => Ok(table),
        Err(error) => Err(fault_of(text, &error)),
    }
}

/// Returns why a text isn't read: the line of the place where its reading stopped, or want of memory.
fn fault_of(text: &str, error: &Error) -> ConfigFault
    requires { ¬ IsMemory error.now → parse_document text.now ≡ None }
    ensures { IsFaultOf text.now result }
{
    match error.span() {
        Some(span) => ConfigFault::NotToml(line_at(text.as_bytes(), span.start)),
        None => ConfigFault::OutOfMemory,
    }
}

/// Returns the number of the line that the byte at a place is in, from 1 on.
fn line_at(text: &[u8], place: usize) -> u64 {
    let before = text.get(..place).unwrap_or(text);
    let feeds = before.iter().filter(|byte| **byte == b'\n').count();
    (feeds as u64).saturating_add(1)
}

/// Refuses an entry that is no option of `run`, or whose value no option takes.
fn check(name: &str, value: &Value) -> Result<(), ConfigFault>
    ensures { IfErr result IsOfEntries }
{
    if name != CONFIG && is_run_option(name) && is_value(value) {
        Ok(())
    } else {
        Err(ConfigFault::NotAnOption)
    }
}

/// Returns the word of an entry.
fn word_of(alloc: Global, name: &str, value: &Value) -> Result<String, AllocError> {
    format!(in alloc; "{}", OptionWord { name, value })
}

/// Returns the words of a command line, and then those of a configuration file.
pub fn all_words<'a, T: AsStr>(
    alloc: Global,
    given: &'a [T],
    configured: &'a [String],
) -> Result<Vec<&'a str>, AllocError>
    ensures { IfOk result (λ words. map (λ word. word.now) words.items ≡ map T.text given.now ++ map string_bytes configured.now) }
{
    let mut words = texts_of(alloc, given)?;
    let mut more = texts_of(alloc, configured)?;
    words.append(&mut more)?;
    Ok(words)
}

/// Returns the texts of words.
fn texts_of<T: AsStr>(alloc: Global, words: &[T]) -> Result<Vec<&str>, AllocError>
    ensures { IfOk result (λ texts. map (λ text. text.now) texts.items ≡ map T.text words.now) }
{
    let mut texts = Vec::with_capacity(alloc, words.len())?;
    for word in words {
        texts.push(word.as_str())?;
    }
    Ok(texts)
}
