//! The key files of a table's parties.

ghost use Rattle.std.specs.Prelude.{◌≡◌, ◌<◌, ◌++◌, IfOk, OnOk};
ghost use Rattle.std.specs.String.{string_bytes};
ghost use Rattle.key_making.specs.Table.{key_of, IsParty};
ghost use Rattle.key_making.specs.KeyFile.{key_line, with_feed, lines_with, validator_file, client_file};
ghost use Rattle.key_making.specs.Rings.{IsFileOf};

use crate::table::KeyTable;
use authenticators::Party;
use std::alloc::{AllocError, Global};
use std::fmt::Write;

impl KeyTable {
    /// The key file of a party, or want of memory.
    pub fn file_of(&self, alloc: Global, party: Party) -> Result<String, AllocError>
        requires { IsParty self.now party }
        ensures { IfOk result (λ text. IsFileOf self.now party (string_bytes text)) }
    {
        let _ = &self.keys;
        match party {
            Party::Validator(me) => self.validator_file(alloc, me),
            Party::Client(client) => self.client_file(alloc, client),
        }
    }

    /// The key file of a validator.
    #[tactic(auto, unfolding(crate::specs::KeyFile::validator_file), using(crate::proofs::KeyFiles::no_lines, crate::proofs::KeyFiles::more_lines))]
    fn validator_file(&self, alloc: Global, me: u16) -> Result<String, AllocError>
        requires { me < self.now.validators }
        ensures { IfOk result (λ text. string_bytes text ≡ validator_file (key_of self.now) me self.now.validators self.now.clients) }
    {
        let mut text = String::new(alloc);
        for other in 0..self.validators() {
            self.put_lines_with(alloc, &mut text, me, other)?;
        }
        for client in 0..self.clients() {
            self.put_line(alloc, &mut text, Party::Client(client), me)?;
        }
        Ok(text)
    }

    /// The key file of a client.
    #[tactic(auto, unfolding(crate::specs::KeyFile::client_file), using(crate::proofs::KeyFiles::no_lines, crate::proofs::KeyFiles::more_lines))]
    fn client_file(&self, alloc: Global, client: u16) -> Result<String, AllocError>
        requires { client < self.now.clients }
        ensures { IfOk result (λ text. string_bytes text ≡ client_file (key_of self.now) client self.now.validators) }
    {
        let mut text = String::new(alloc);
        for to in 0..self.validators() {
            self.put_line(alloc, &mut text, Party::Client(client), to)?;
        }
        Ok(text)
    }

    /// The keys between a validator and another: one where that is the same.
    fn put_lines_with(
        &self,
        alloc: Global,
        text: &mut String,
        me: u16,
        other: u16,
    ) -> Result<(), AllocError>
        requires me { me < self.now.validators }
        requires other { other < self.now.validators }
        ensures { OnOk result (string_bytes text.new ≡ string_bytes text.old ++ lines_with (key_of self.now) me other) }
    {
        self.put_line(alloc, text, Party::Validator(other), me)?;
        if other != me {
            self.put_line(alloc, text, Party::Validator(me), other)?;
        }
        Ok(())
    }

    /// The line of one key.
    #[tactic(auto, unfolding(crate::specs::KeyFile::key_line))]
    fn put_line(
        &self,
        alloc: Global,
        text: &mut String,
        from: Party,
        to: u16,
    ) -> Result<(), AllocError>
        requires from { IsParty self.now from }
        requires to { to < self.now.validators }
        ensures { OnOk result (string_bytes text.new ≡ string_bytes text.old ++ with_feed (key_line (key_of self.now) from to)) }
    {
        let key = self.key(from, to);
        let digits = hex::encode(alloc, key.as_slice())?;
        let to = Party::Validator(to);
        writeln!(text, "{from} {to} {digits}")
    }
}
