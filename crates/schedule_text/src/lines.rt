//! The forms of executed lines, each by the words behind its first one.
//!
//! A number of a message, of a validator or of a client is read at any length: one that is too large is nobody's.

ghost use Rattle.std.specs.Prelude.{◌≡◌, true, false, Some, IfOk, IfSome, OnOk};
ghost use Rattle.std.specs.List.{list_all};
ghost use Rattle.world_parties.specs.Cast.{Cast, is_liar};
ghost use Rattle.schedule_text.specs.Lines.{receiver, sender, is_no_correct, allows};

use crate::fault::LineFault;
use crate::items::{bytes_in, name_in, sent_in, tagged_in};
use crate::numbers::{count_in, list_in, number_in, number_in_u32};
use crate::values::Values;
use crate::words::is_word;
use messages::Step;
use protocol::Timeout;
use std::alloc::Global;
use transactions::{Duplicate, Op, Seq, Value};
use world_parties::{Bundling, Parties, Proposing, Voting};
use world_schedule::{Event, Failing};

/// What executed lines are read with.
#[derive(Clone, Copy)]
pub(crate) struct Forms<'a> {
    pub(crate) alloc: Global,
    pub(crate) parties: &'a Parties,
    pub(crate) values: &'a Values,
}

impl Forms<'_> {
    /// The event of an executed line.
    pub(crate) fn event(&self, kind: &[u8], words: &[&[u8]]) -> Result<Event, LineFault>
        ensures { IfOk result (λ event. allows self.now.parties.now event ≡ true) }
    {
        if is_word(kind, "propose") {
            self.propose(words)
        } else if is_word(kind, "vote") {
            self.vote(words)
        } else if is_word(kind, "bundle") {
            self.bundle(words)
        } else if is_word(kind, "tx") {
            self.tx(words)
        } else if is_word(kind, "raw") {
            self.raw(words)
        } else if is_word(kind, "send") {
            self.send(words)
        } else {
            self.bare_event(kind, words).ok_or(LineFault::BadLine)
        }
    }

    /// An executed line of a form that has no value, item or bytes.
    fn bare_event(&self, kind: &[u8], words: &[&[u8]]) -> Option<Event>
        ensures { IfSome result (λ event. allows self.now.parties.now event ≡ true) }
    {
        if is_word(kind, "pass") {
            pass_line(words)
        } else if is_word(kind, "deliver") {
            self.deliver(words)
        } else if is_word(kind, "timeout") {
            self.timeout(words)
        } else if is_word(kind, "fail") {
            self.fail(words)
        } else if is_word(kind, "close") {
            close_line(words)
        } else if is_word(kind, "open") {
            open_line(words)
        } else {
            self.asked(kind, words)
        }
    }

    /// `ask P`, `resend P` or `restart P`
    fn asked(&self, kind: &[u8], words: &[&[u8]]) -> Option<Event>
        ensures { IfSome result (λ event. allows self.now.parties.now event ≡ true) }
    {
        let [receiver] = words else {
            return None;
        };
        let receiver = self.receiver(receiver)?;
        if is_word(kind, "ask") {
            Some(Event::Ask(receiver))
        } else if is_word(kind, "resend") {
            Some(Event::Resend(receiver))
        } else if is_word(kind, "restart") {
            Some(Event::Restart(receiver))
        } else {
            None
        }
    }

    /// `deliver M P`
    fn deliver(&self, words: &[&[u8]]) -> Option<Event>
        ensures { IfSome result (λ event. allows self.now.parties.now event ≡ true) }
    {
        let [number, receiver] = words else {
            return None;
        };
        let number = count_in(number)?;
        Some(Event::Deliver(number, self.receiver(receiver)?))
    }

    /// `timeout P KIND H R`
    fn timeout(&self, words: &[&[u8]]) -> Option<Event>
        ensures { IfSome result (λ event. allows self.now.parties.now event ≡ true) }
    {
        let [receiver, kind, height, round] = words else {
            return None;
        };
        let receiver = self.receiver(receiver)?;
        let timeout = Timeout {
            kind: timeout_step_in(kind)?,
            height: number_in(height)?,
            round: number_in_u32(round)?,
        };
        Some(Event::Timeout(receiver, timeout))
    }

    /// `fail P CALL KEEP`
    fn fail(&self, words: &[&[u8]]) -> Option<Event>
        ensures { IfSome result (λ event. allows self.now.parties.now event ≡ true) }
    {
        let [receiver, call, keep] = words else {
            return None;
        };
        let receiver = self.receiver(receiver)?;
        let failing = Failing {
            call: count_in(call)?,
            keep: keep_in(keep)?,
        };
        Some(Event::Fail(receiver, failing))
    }

    /// `propose S P H R VR NAME`
    fn propose(&self, words: &[&[u8]]) -> Result<Event, LineFault>
        ensures { IfOk result (λ event. allows self.now.parties.now event ≡ true) }
    {
        let [sender, receiver, height, round, valid_round, name] = words else {
            return Err(LineFault::BadLine);
        };
        let (sender, receiver) = self.liar_to(sender, receiver).ok_or(LineFault::BadLine)?;
        let (height, round) = height_and_round_in(height, round).ok_or(LineFault::BadLine)?;
        let line = Proposing {
            sender,
            height,
            round,
            valid_round: valid_round_in(valid_round).ok_or(LineFault::BadLine)?,
            value: self.value(name)?,
        };
        Ok(Event::Propose(receiver, line))
    }

    /// `vote S P KIND H R CONTENT`
    fn vote(&self, words: &[&[u8]]) -> Result<Event, LineFault>
        ensures { IfOk result (λ event. allows self.now.parties.now event ≡ true) }
    {
        let [sender, receiver, kind, height, round, content] = words else {
            return Err(LineFault::BadLine);
        };
        let (sender, receiver) = self.liar_to(sender, receiver).ok_or(LineFault::BadLine)?;
        let (height, round) = height_and_round_in(height, round).ok_or(LineFault::BadLine)?;
        let line = Voting {
            sender,
            step: vote_step_in(kind).ok_or(LineFault::BadLine)?,
            height,
            round,
            value: self.content(content)?,
        };
        Ok(Event::Vote(receiver, line))
    }

    /// `bundle S P H R NAME IDNAME LIST`
    fn bundle(&self, words: &[&[u8]]) -> Result<Event, LineFault>
        ensures { IfOk result (λ event. allows self.now.parties.now event ≡ true) }
    {
        let [sender, receiver, height, round, name, named, signers] = words else {
            return Err(LineFault::BadLine);
        };
        let (sender, receiver) = self.liar_to(sender, receiver).ok_or(LineFault::BadLine)?;
        let (height, round) = height_and_round_in(height, round).ok_or(LineFault::BadLine)?;
        let line = Bundling {
            sender,
            height,
            round,
            value: self.value(name)?,
            named: self.value(named)?,
            signers: self.signers(signers)?,
        };
        Ok(Event::Bundle(receiver, line))
    }

    /// `tx P ITEM`
    fn tx(&self, words: &[&[u8]]) -> Result<Event, LineFault>
        ensures { IfOk result (λ event. allows self.now.parties.now event ≡ true) }
    {
        let [receiver, item] = words else {
            return Err(LineFault::BadLine);
        };
        let receiver = self.receiver(receiver).ok_or(LineFault::BadLine)?;
        let line = tagged_in(self.alloc, item, self.parties)?;
        Ok(Event::Submit(receiver, line))
    }

    /// `raw P BYTES`
    fn raw(&self, words: &[&[u8]]) -> Result<Event, LineFault>
        ensures { IfOk result (λ event. allows self.now.parties.now event ≡ true) }
    {
        let [receiver, bytes] = words else {
            return Err(LineFault::BadLine);
        };
        let receiver = self.receiver(receiver).ok_or(LineFault::BadLine)?;
        let frame = Seq::from_vec(bytes_in(self.alloc, bytes)?);
        Ok(Event::Frame(receiver, frame))
    }

    /// `send C BYTES`
    fn send(&self, words: &[&[u8]]) -> Result<Event, LineFault>
        ensures { IfOk result (λ event. allows self.now.parties.now event ≡ true) }
    {
        let [client, bytes] = words else {
            return Err(LineFault::BadLine);
        };
        let client = count_in(client).ok_or(LineFault::BadLine)?;
        Ok(Event::Send(client, sent_in(self.alloc, bytes)?))
    }

    /// `P`: a correct validator, or a number that is no validator's.
    fn receiver(&self, word: &[u8]) -> Option<u64>
        ensures exact { result ≡ receiver self.now.parties.now word.now }
        ensures no_liar { IfSome result (λ number. is_liar self.now.parties.now number ≡ false) }
    {
        let number = count_in(word)?;
        match self.parties.liar_at(number) {
            Ok(_) => None,
            Err(_) => Some(number),
        }
    }

    /// A liar, or a number that is no validator's.
    fn is_no_correct(&self, number: u64) -> bool
        ensures { result ≡ is_no_correct self.now.parties.now number }
    {
        self.parties.correct_at(number).is_err()
    }

    /// `S P`
    fn liar_to(&self, from: &[u8], to: &[u8]) -> Option<(u64, u64)>
        ensures exact { IfSome result (λ both. (sender self.now.parties.now from.now ≡ Some both.0) × (receiver self.now.parties.now to.now ≡ Some both.1)) }
        ensures fit { IfSome result (λ both. (is_no_correct self.now.parties.now both.0 ≡ true) × (is_liar self.now.parties.now both.1 ≡ false)) }
    {
        let sender = count_in(from)?;
        if self.is_no_correct(sender) {
            Some((sender, self.receiver(to)?))
        } else {
            None
        }
    }

    /// `LIST`, of liars.
    fn signers(&self, word: &[u8]) -> Result<Seq<u64>, LineFault>
        ensures { IfOk result (λ signers. list_all (is_no_correct self.now.parties.now) signers ≡ true) }
    {
        let signers = list_in(self.alloc, word)?;
        self.check_signers(&signers)?;
        Ok(Seq::from_vec(signers))
    }

    /// None of these is a correct validator.
    fn check_signers(&self, signers: &[u64]) -> Result<(), LineFault>
        ensures { OnOk result (list_all (is_no_correct self.now.parties.now) signers.now ≡ true) }
    {
        for signer in signers {
            if !self.is_no_correct(*signer) {
                return Err(LineFault::BadLine);
            }
        }
        Ok(())
    }

    /// `NAME`
    fn value(&self, word: &[u8]) -> Result<Value, LineFault> {
        let name = name_in(word).ok_or(LineFault::BadLine)?;
        let value = self.values.get(name).ok_or(LineFault::BadLine)?;
        Ok(value.copy(self.alloc)?)
    }

    /// `nil`, or a name.
    fn content(&self, word: &[u8]) -> Result<Option<Value>, LineFault> {
        match word {
            b"nil" => Ok(None),
            _ => Ok(Some(self.value(word)?)),
        }
    }
}

fn pass_line(words: &[&[u8]]) -> Option<Event>
    ensures { (cast : Cast) → IfSome result (λ event. allows cast event ≡ true) }
{
    if words.is_empty() {
        Some(Event::Pass)
    } else {
        None
    }
}

/// `close C`
fn close_line(words: &[&[u8]]) -> Option<Event>
    ensures { (cast : Cast) → IfSome result (λ event. allows cast event ≡ true) }
{
    let [client] = words else {
        return None;
    };
    Some(Event::Send(count_in(client)?, Op::Close))
}

/// `open C`
fn open_line(words: &[&[u8]]) -> Option<Event>
    ensures { (cast : Cast) → IfSome result (λ event. allows cast event ≡ true) }
{
    let [client] = words else {
        return None;
    };
    Some(Event::Open(count_in(client)?))
}

/// `-` for no bytes, or how many.
fn keep_in(word: &[u8]) -> Option<u64> {
    match word {
        b"-" => Some(0),
        _ => count_in(word),
    }
}

/// `H R`
fn height_and_round_in(height: &[u8], round: &[u8]) -> Option<(u64, u32)> {
    Some((number_in(height)?, number_in_u32(round)?))
}

/// -1 for none, or a round.
fn valid_round_in(word: &[u8]) -> Option<Option<u32>> {
    match word {
        b"-1" => Some(None),
        _ => Some(Some(number_in_u32(word)?)),
    }
}

fn vote_step_in(word: &[u8]) -> Option<Step> {
    if is_word(word, "prevote") {
        Some(Step::Prevote)
    } else if is_word(word, "precommit") {
        Some(Step::Precommit)
    } else {
        None
    }
}

fn timeout_step_in(word: &[u8]) -> Option<protocol::Step> {
    if is_word(word, "propose") {
        Some(protocol::Step::Propose)
    } else if is_word(word, "prevote") {
        Some(protocol::Step::Prevote)
    } else if is_word(word, "precommit") {
        Some(protocol::Step::Precommit)
    } else {
        None
    }
}
