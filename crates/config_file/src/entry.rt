//! An entry of a configuration file as a word of the command line.

use std::fmt;
use toml::Value;

/// A word `--NAME=VALUE`.
#[derive(Clone, Copy)]
pub(crate) struct OptionWord<'a> {
    pub(crate) name: &'a str,
    pub(crate) value: &'a Value,
}

impl fmt::Display for OptionWord<'_> {
    fn fmt<W: fmt::Write>(&self, f: &mut fmt::Formatter<W>) -> fmt::Result {
        write!(f, "--{}=", self.name)?;
        match self.value {
            Value::Array(items) => write_list(items, f),
            value => write_single(value, f),
        }
    }
}

/// Writes the items of a list with commas between them.
fn write_list<W: fmt::Write>(items: &[Value], f: &mut fmt::Formatter<W>) -> fmt::Result {
    for (place, item) in items.iter().enumerate() {
        if place > 0 {
            f.write_str(",")?;
        }
        write_single(item, f)?;
    }
    Ok(())
}

/// Writes a text as it is, and a number in decimal digits.
fn write_single<W: fmt::Write>(value: &Value, f: &mut fmt::Formatter<W>) -> fmt::Result {
    match value {
        Value::String(text) => f.write_str(text.as_str()),
        Value::Integer(number) => write!(f, "{number}"),
        _ => Ok(()),
    }
}

/// Returns whether an option may have the value.
pub(crate) fn is_value(value: &Value) -> bool {
    match value {
        Value::Array(items) => !items.is_empty() && items.iter().all(is_single),
        value => is_single(value),
    }
}

/// Returns whether the value is a text, or a whole number from 0 on.
fn is_single(value: &Value) -> bool {
    match value {
        Value::String(_) => true,
        Value::Integer(number) => *number >= 0,
        _ => false,
    }
}
