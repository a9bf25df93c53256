//! The keys of a world's parties, and tags under them.

ghost use Rattle.std.specs.Prelude.{◌≡◌, ◌<◌, ◌≤◌, ◌++◌, ◌==◌, ℕ, List, None, true, length, map, IfOk, OnOk};
ghost use Rattle.std.specs.List.{list_any};
ghost use Rattle.std.specs.String.{string_bytes};
ghost use Rattle.protocol.specs.Rings.{IsRingOf};
ghost use Rattle.protocol.specs.Messages.{below};
ghost use Rattle.protocol.specs.Tags.{Validator, hmac as hmac_of};
ghost use Rattle.world_parties.specs.Keys.{key_between, setting, tag_for, tags_for};
ghost use Rattle.world_parties.specs.Sets.{is_right_for};
ghost use Rattle.world_parties.specs.KeyFile.{key_line, with_feed, lines_with, key_file};

use authenticators::{Key, KeyRing, KeysFault, Party, hmac};
use sha2::{Digest, Sha256};
use std::alloc::{AllocError, Global};
use std::fmt::Write;
use transactions::Seq;

/// The key of what a party sends to a validator: the SHA-256 digest (FIPS 180-4) of the text
/// `tmsim FROM TO`, as `tmsim c7 v2`.
#[tactic(auto, unfolding(crate::specs::Keys::key_between))]
pub(crate) fn key_between(alloc: Global, from: Party, to: u16) -> Result<[u8; 32], AllocError>
    ensures { IfOk result (λ key. key ≡ key_between from to) }
{
    let to = Party::Validator(to);
    let text = format!(in alloc; "tmsim {from} {to}")?;
    Ok(Sha256::digest(text.as_bytes()))
}

/// A party's tags of a body's bytes, for the validators in turn. Those that aren't to be right are
/// zeros.
#[tactic(auto, using(crate::proofs::Tags::tags_none, crate::proofs::Tags::tags_more))]
pub(crate) fn tags_of(
    alloc: Global,
    from: Party,
    validators: u16,
    right: &Option<Seq<u16>>,
    body: &[u8],
) -> Result<Vec<[u8; 32]>, AllocError>
    ensures { IfOk result (λ tags. tags.items ≡ tags_for right.now from validators body.now) }
{
    let mut tags = Vec::with_capacity(alloc, usize::from(validators))?;
    for to in 0..validators {
        tags.push(tag_for(alloc, from, to, right, body)?)?;
    }
    Ok(tags)
}

fn tag_for(
    alloc: Global,
    from: Party,
    to: u16,
    right: &Option<Seq<u16>>,
    body: &[u8],
) -> Result<[u8; 32], AllocError>
    ensures { IfOk result (λ tag. tag ≡ tag_for right.now from body.now to) }
{
    if !is_right_for(right, to) {
        return Ok([0u8; 32]);
    }
    let key = key_between(alloc, from, to)?;
    Ok(hmac(&key, body))
}

/// The keys of what a validator sends to each of the first so many, made ready for tags.
#[derive(Drop)]
pub(crate) struct SenderKeys {
    sender: u16,
    keys: Vec<Key>,
    ghost right: { keys.items ≡ map (key_between (Validator sender)) (below (length keys.items)) },
}

impl SenderKeys {
    pub(crate) fn new(alloc: Global, sender: u16, validators: u16) -> Result<SenderKeys, AllocError>
        ensures { IfOk result (λ made. (made.sender ≡ sender) × (length made.keys.items ≡ validators)) }
    {
        let keys = keys_from(alloc, sender, validators)?;
        Ok(SenderKeys { sender, keys })
    }

    /// Returns whether they are of what this validator sends to so many.
    pub(crate) fn are_of(&self, sender: u16, validators: u16) -> bool
        ensures { result ≡ true → (self.now.sender ≡ sender) × (length self.now.keys.items ≡ validators) }
    {
        self.sender == sender && self.keys.len() == usize::from(validators)
    }

    /// The right tags of a body's bytes, in turn.
    #[tactic(auto, using(crate::proofs::Tags::tags_by_keys))]
    pub(crate) fn tags(&self, alloc: Global, body: &[u8]) -> Result<Vec<[u8; 32]>, AllocError>
        ensures { IfOk result (λ tags. tags.items ≡ tags_for None (Validator self.now.sender) (length self.now.keys.items) body.now) }
    {
        tags_under(alloc, &self.keys, body)
    }
}

/// The keys of what a validator sends to each of the first so many.
#[tactic(auto, using(crate::proofs::Tags::no_keys, crate::proofs::Tags::more_keys))]
fn keys_from(alloc: Global, sender: u16, validators: u16) -> Result<Vec<Key>, AllocError>
    ensures { IfOk result (λ keys. (keys.items ≡ map (key_between (Validator sender)) (below validators)) × (length keys.items ≡ validators)) }
{
    let mut keys = Vec::with_capacity(alloc, usize::from(validators))?;
    for to in 0..validators {
        let key = key_between(alloc, Party::Validator(sender), to)?;
        keys.push(Key::new(key))?;
    }
    Ok(keys)
}

/// The tags of a text under each of these keys.
fn tags_under(alloc: Global, keys: &[Key], text: &[u8]) -> Result<Vec<[u8; 32]>, AllocError>
    ensures { IfOk result (λ tags. tags.items ≡ map (λ (key : List ℕ). hmac_of key text.now) keys.now) }
{
    let mut tags = Vec::with_capacity(alloc, keys.len())?;
    for key in keys {
        tags.push(key.tag(text))?;
    }
    Ok(tags)
}

/// The keys of a validator: those of what each validator and each client sends to it, and of what it
/// sends.
#[tactic(auto, using(crate::proofs::Rings::file_is_right))]
pub(crate) fn ring_of(
    alloc: Global,
    me: u16,
    validators: u16,
    clients: u16,
) -> Result<KeyRing, AllocError>
    requires me { me < validators }
    requires clients { clients ≤ 1024 }
    ensures { IfOk result (λ ring. (powers : List ℕ) → length powers ≡ validators → IsRingOf (setting powers clients) me ring) }
{
    let text = key_file(alloc, me, validators, clients)?;
    match KeyRing::read(alloc, text.as_bytes(), Party::Validator(me), validators) {
        Ok(ring) => Ok(ring),
        Err(KeysFault::OutOfMemory) => Err(AllocError),
        Err(KeysFault::BadLine | KeysFault::Missing | KeysFault::Repeated) => unreachable!(),
    }
}

/// The key file of a validator.
#[tactic(auto, unfolding(crate::specs::KeyFile::key_file), using(crate::proofs::KeyFiles::no_lines, crate::proofs::KeyFiles::more_lines))]
fn key_file(alloc: Global, me: u16, validators: u16, clients: u16) -> Result<String, AllocError>
    ensures { IfOk result (λ text. string_bytes text ≡ key_file me validators clients) }
{
    let mut text = String::new(alloc);
    for other in 0..validators {
        put_lines_with(alloc, &mut text, me, other)?;
    }
    for client in 0..clients {
        put_key(alloc, &mut text, Party::Client(client), me)?;
    }
    Ok(text)
}

/// The keys between a validator and another: one where that is the same.
fn put_lines_with(alloc: Global, text: &mut String, me: u16, other: u16) -> Result<(), AllocError>
    ensures { OnOk result (string_bytes text.new ≡ string_bytes text.old ++ lines_with me other) }
{
    put_key(alloc, text, Party::Validator(other), me)?;
    if other != me {
        put_key(alloc, text, Party::Validator(me), other)?;
    }
    Ok(())
}

/// The line of one key.
#[tactic(auto, unfolding(crate::specs::KeyFile::key_line))]
fn put_key(alloc: Global, text: &mut String, from: Party, to: u16) -> Result<(), AllocError>
    ensures { OnOk result (string_bytes text.new ≡ string_bytes text.old ++ with_feed (key_line from to)) }
{
    let key = key_between(alloc, from, to)?;
    let digits = hex::encode(alloc, key.as_slice())?;
    let to = Party::Validator(to);
    writeln!(text, "{from} {to} {digits}")
}

/// Whether the tag for this validator is to be right: all are where no validators are listed.
fn is_right_for(right: &Option<Seq<u16>>, validator: u16) -> bool
    ensures { result ≡ is_right_for right.now validator }
{
    match right {
        None => true,
        Some(validators) => contains(validators.as_slice(), validator),
    }
}

fn contains(validators: &[u16], validator: u16) -> bool
    ensures { result ≡ list_any (λ one. one == validator) validators.now }
{
    validators.iter().any(|one| *one == validator)
}
