//! The lines of a key file.

ghost use Rattle.std.specs.Prelude.{◌≡◌, ◌<◌, ◌≤◌, map, IfOk, []};
ghost use Rattle.std.specs.List.{range_with_len, slice_split};
ghost use Rattle.authenticators.specs.Keys.{Gives, is_skipped, is_line_feed, key_between, with_line, with_lines, every_key, keys_from};
ghost use Rattle.authenticators.specs.declared.party.Party.TheVariants.{Validator, Client};

use crate::key_line::{KeyLine, MOST_CLIENTS};
use crate::{Key, KeysFault, Party};
use std::alloc::{AllocError, Global};

/// Reads the lines of a key file of this party.
pub fn read_lines(
    alloc: Global,
    text: &[u8],
    me: Party,
    validators: u16,
) -> Result<Vec<KeyLine>, KeysFault>
    ensures { Gives (λ lines. lines.items) result (with_lines me validators [] (slice_split is_line_feed text.now)) }
{
    let mut lines = Vec::new(alloc);
    for line in text.split(|byte| *byte == b'\n') {
        add_line(&mut lines, line, me, validators)?;
    }
    Ok(lines)
}

/// Reads one line more.
#[tactic(auto, unfolding(crate::specs::Keys::with_line))]
fn add_line(
    lines: &mut Vec<KeyLine>,
    line: &[u8],
    me: Party,
    validators: u16,
) -> Result<(), KeysFault>
    ensures { Gives (λ _. lines.new.items) result (with_line me validators lines.old.items line.now) }
{
    if is_skipped(line) {
        return Ok(());
    }
    let Some(key) = KeyLine::read(line) else {
        return Err(KeysFault::BadLine);
    };
    if !key.is_mine(me, validators) {
        return Err(KeysFault::BadLine);
    }
    if key_between(lines, key.from, key.to).is_some() {
        return Err(KeysFault::Repeated);
    }
    lines.push(key)?;
    Ok(())
}

/// Whether a line is empty or a comment.
fn is_skipped(line: &[u8]) -> bool
    ensures { result ≡ is_skipped line.now }
{
    line.is_empty() || line[0] == b'#'
}

/// The key of what one party sends to a validator, by these lines.
#[tactic(auto, unfolding(crate::specs::Keys::key_between))]
pub fn key_between(lines: &[KeyLine], from: Party, to: u16) -> Option<Key>
    ensures { result ≡ key_between lines.now from to }
{
    let line = lines.iter().find(|line| line.is_between(from, to))?;
    Some(Key::new(line.key))
}

/// The keys of what one party sends to each validator.
pub fn keys_to_validators(
    alloc: Global,
    lines: &[KeyLine],
    from: Party,
    validators: u16,
) -> Result<Vec<Key>, KeysFault>
    ensures { Gives (λ keys. keys.items) result
        (every_key (map (λ to. key_between lines.now from to) (range_with_len 0 validators))) }
{
    let mut keys = Vec::with_capacity(alloc, validators as usize)?;
    for to in 0..validators {
        let Some(key) = key_between(lines, from, to) else {
            return Err(KeysFault::Missing);
        };
        keys.push(key)?;
    }
    Ok(keys)
}

/// The keys of what each validator sends to this party.
#[tactic(auto, unfolding(crate::specs::Keys::keys_from, crate::specs::Keys::every_key))]
pub fn keys_from_validators(
    alloc: Global,
    lines: &[KeyLine],
    me: Party,
    validators: u16,
) -> Result<Vec<Key>, KeysFault>
    ensures { Gives (λ keys. keys.items) result (every_key (keys_from lines.now me Validator validators)) }
{
    match me {
        Party::Validator(number) => validators_to(alloc, lines, validators, number),
        Party::Client(_) => Ok(Vec::new(alloc)),
    }
}

/// The keys of what each client sends to this party, where it has one.
#[tactic(auto, unfolding(crate::specs::Keys::keys_from))]
pub fn keys_from_clients(
    alloc: Global,
    lines: &[KeyLine],
    me: Party,
) -> Result<Vec<Option<Key>>, AllocError>
    ensures { IfOk result (λ keys. keys.items ≡ keys_from lines.now me Client 1024) }
{
    match me {
        Party::Validator(number) => clients_to(alloc, lines, number),
        Party::Client(_) => Ok(Vec::new(alloc)),
    }
}

/// The keys of what each validator sends to one.
fn validators_to(
    alloc: Global,
    lines: &[KeyLine],
    validators: u16,
    to: u16,
) -> Result<Vec<Key>, KeysFault>
    ensures { Gives (λ keys. keys.items) result
        (every_key (map (λ from. key_between lines.now (Validator from) to) (range_with_len 0 validators))) }
{
    let mut keys = Vec::with_capacity(alloc, validators as usize)?;
    for from in 0..validators {
        let Some(key) = key_between(lines, Party::Validator(from), to) else {
            return Err(KeysFault::Missing);
        };
        keys.push(key)?;
    }
    Ok(keys)
}

/// The keys of what each client sends to a validator, where it has one.
fn clients_to(alloc: Global, lines: &[KeyLine], to: u16) -> Result<Vec<Option<Key>>, AllocError>
    ensures { IfOk result (λ keys. keys.items ≡ map (λ from. key_between lines.now (Client from) to) (range_with_len 0 1024)) }
{
    let mut keys = Vec::with_capacity(alloc, MOST_CLIENTS as usize)?;
    for from in 0..MOST_CLIENTS {
        keys.push(key_between(lines, Party::Client(from), to))?;
    }
    Ok(keys)
}
