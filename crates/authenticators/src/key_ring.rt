//! The keys of one party, by the other party's number.

ghost use Rattle.std.specs.Prelude.{◌≡◌, length, IfOk};
ghost use Rattle.std.specs.Option.{option_copied};
ghost use Rattle.authenticators.specs.Keys.{Gives, ring_of, ring_with};
ghost use Rattle.authenticators.specs.Ring.{incoming, outgoing, tags_of, IsWhole};

use crate::key_file::{keys_from_clients, keys_from_validators, keys_to_validators, read_lines};
use crate::key_line::KeyLine;
use crate::{Key, KeysFault, Party};
use std::alloc::{AllocError, Global};
use std::marker::Model;

/// The keys that a party shares with others: one for each that sends to it, and one for each that it sends to.
///
/// Clauses see it as a `Ring`. A key is found by the other party's number, with no search.
#[derive(Debug, Drop)]
pub struct KeyRing {
    me: Party,
    count: u16,
    from_validators: Vec<Key>,
    from_clients: Vec<Option<Key>>,
    to_validators: Vec<Key>,
}

impl Model for KeyRing {
    ghost use Rattle.std.specs.Prelude.{◌≡◌, ℕ, length, slice_get};
    ghost use Rattle.authenticators.specs.Ring.{Ring, sender_count};
    ghost use Rattle.authenticators.specs.declared.party.Party.TheVariants.{Validator};

    ghost Value = { Ring };

    ghost view = { λ a. record {
      me = a.me;
      count = a.count;
      from_validators = a.from_validators.items;
      from_clients = a.from_clients.items;
      to_validators = a.to_validators.items;
    } };

    ghost invariant = { λ a. (length a.to_validators.items ≡ a.count)
        × (length a.from_validators.items ≡ sender_count a.me a.count)
        × ((me : ℕ) → a.me ≡ Validator me → slice_get a.from_validators.items me ≡ slice_get a.to_validators.items me) };
}

impl KeyRing {
    /// Reads the keys of `me`, one of `validators` validators or of 1,024 clients, from a key file.
    ///
    /// The file is a text of lines, each ended by a line feed, which the last may lack. An empty line, or one that
    /// begins with `#`, is skipped. Any other is `FROM TO KEY`, with one space between: FROM is `vN` or `cN`, TO is
    /// `vN`, N a decimal number without leading zeros, and KEY 64 hexadecimal digits in either case. It is the key of
    /// what FROM sends to TO.
    ///
    /// Each line has to be about `me` and parties in range: a validator below `validators`, a client below 1,024. A
    /// validator needs the keys of what it sends to each validator and of what each of them sends to it, itself
    /// among them; a client that has no line is unknown to it. A client needs the keys of what it sends to each
    /// validator.
    pub fn read(
        alloc: Global,
        text: &[u8],
        me: Party,
        validators: u16,
    ) -> Result<KeyRing, KeysFault>
        ensures { Gives (λ ring. ring) result (ring_of me validators text.now) }
    {
        let lines = read_lines(alloc, text, me, validators)?;
        KeyRing::from_lines(alloc, &lines, me, validators)
    }

    /// The ring that the lines of a key file make.
    fn from_lines(
        alloc: Global,
        lines: &[KeyLine],
        me: Party,
        validators: u16,
    ) -> Result<KeyRing, KeysFault>
        ensures { Gives (λ ring. ring) result (ring_with me validators lines.now) }
    {
        let to_validators = keys_to_validators(alloc, lines, me, validators)?;
        let from_validators = keys_from_validators(alloc, lines, me, validators)?;
        let from_clients = keys_from_clients(alloc, lines, me)?;
        Ok(KeyRing {
            me,
            count: validators,
            from_validators,
            from_clients,
            to_validators,
        })
    }

    /// Whose keys these are.
    pub fn me(&self) -> Party
        ensures { result ≡ self.now.me }
    {
        self.me
    }

    /// How many validators there are. No key with one of them is absent, and none is there of any further one; for itself
    /// a validator has one key.
    pub fn count(&self) -> u16
        ensures count { result ≡ self.now.count }
        ensures whole { IsWhole self.now }
    {
        self.count
    }

    /// The key of what a party sends to this one, if it is a known party.
    pub fn incoming(&self, from: Party) -> Option<&Key>
        ensures { option_copied result ≡ incoming self.now from }
    {
        match from {
            Party::Validator(number) => self.from_validators.get(number as usize),
            Party::Client(number) => match self.from_clients.get(number as usize) {
                Some(key) => key.as_ref(),
                None => None,
            },
        }
    }

    /// The key of what this party sends to a validator, if the number is one's.
    pub fn outgoing(&self, to: u16) -> Option<&Key>
        ensures { option_copied result ≡ outgoing self.now to }
    {
        self.to_validators.get(to as usize)
    }
}

/// The tags of a body that the ring's party sends, for each validator in turn.
pub fn tag_all(alloc: Global, ring: &KeyRing, body: &[u8]) -> Result<Vec<[u8; 32]>, AllocError>
    ensures tags { IfOk result (λ tags. tags.items ≡ tags_of ring.now body.now) }
    ensures count { IfOk result (λ tags. length tags.items ≡ ring.now.count) }
{
    let mut tags = Vec::with_capacity(alloc, ring.to_validators.len())?;
    for key in &ring.to_validators {
        tags.push(key.tag(body))?;
    }
    Ok(tags)
}
