//! What the words behind `send` ask for, and the lines of its file.

ghost use Rattle.std.specs.Prelude.{◌≡◌, IfOk, option_map};
ghost use Rattle.clap.specs.Words.{found_of, rows_of};
ghost use Rattle.transactions.specs.Grammar.{IsOp};
ghost use Rattle.node_settings.specs.Words.{Gives, op_of, line_op};
ghost use Rattle.node_settings.specs.Lawful.{IsLawfulSender, IsLawfulBatch, IsLawfulSending, IsLawfulSend};
ghost use Rattle.node_settings.specs.Sending.{sent_words, sender_words, batch_words, send_words, sender_of, sent_of, batch_of, send_of};

use crate::invocation::{SendSettings, Sending, SettingsFault};
use crate::lists::{bytes_of, words_of};
use crate::options::{is_flagged, number, number_or, validators_of, word, word_of};
use clap::ArgMatches;
use protocol::{LAST_CLIENT, LAST_NUMBER};
use std::alloc::Global;
use transactions::{Data, Op};

/// Who sends.
#[derive(Clone, Copy)]
struct Sender<'a> {
    client: u16,
    validators: u16,
    keys: &'a str,
}

/// What is sent, and the place of its first transaction.
#[derive(Drop)]
struct Batch<'a> {
    number: u64,
    session: u32,
    sending: Sending<'a>,
}

impl<'a> SendSettings<'a> {
    /// Those of the words behind `send`.
    #[tactic(auto, unfolding(crate::specs::Sending::send_of))]
    pub(crate) fn read(
        alloc: Global,
        found: &ArgMatches<'a>,
    ) -> Result<SendSettings<'a>, SettingsFault>
        ensures asked { Gives send_words result (send_of (rows_of (found_of found.now))) }
        ensures lawful { IfOk result IsLawfulSend }
    {
        let Sender {
            client,
            validators,
            keys,
        } = Sender::read(found)?;
        let to = words_of(alloc, word(found, "to")?)?;
        let Batch {
            number,
            session,
            sending,
        } = Batch::read(alloc, found)?;
        Ok(SendSettings {
            client,
            validators,
            keys,
            to,
            number,
            session,
            sending,
        })
    }
}

impl<'a> Sender<'a> {
    #[tactic(auto, unfolding(crate::specs::Sending::sender_of))]
    fn read(found: &ArgMatches<'a>) -> Result<Sender<'a>, SettingsFault>
        ensures asked { Gives sender_words result (sender_of (rows_of (found_of found.now))) }
        ensures lawful { IfOk result IsLawfulSender }
    {
        let client = number(found, "id", 0, u64::from(LAST_CLIENT))? as u16;
        let validators = validators_of(found)?;
        let keys = word(found, "keys")?;
        Ok(Sender {
            client,
            validators,
            keys,
        })
    }
}

impl<'a> Batch<'a> {
    /// It is of the client's first session, 0, where none is named.
    #[tactic(auto, unfolding(crate::specs::Sending::batch_of))]
    fn read(alloc: Global, found: &ArgMatches<'a>) -> Result<Batch<'a>, SettingsFault>
        ensures asked { Gives batch_words result (batch_of (rows_of (found_of found.now))) }
        ensures lawful { IfOk result IsLawfulBatch }
    {
        let number = number(found, "number", 1, LAST_NUMBER)?;
        let session = number_or(found, "session", 0, 0, u64::from(u32::MAX))? as u32;
        let close = is_flagged(found, "close");
        let sending = sending_of(alloc, word_of(found, "data"), close, word_of(found, "file"))?;
        Ok(Batch {
            number,
            session,
            sending,
        })
    }
}

/// What is sent, by the words of `--data` and `--file` and whether `--close` is there: exactly one has to be.
fn sending_of<'a>(
    alloc: Global,
    digits: Option<&str>,
    close: bool,
    file: Option<&'a str>,
) -> Result<Sending<'a>, SettingsFault>
    ensures asked { Gives sent_words result (sent_of (option_map (λ word. word.now) digits.entry) close (option_map (λ word. word.now) file.entry)) }
    ensures lawful { IfOk result IsLawfulSending }
{
    let Some(file) = file else {
        return Ok(Sending::One(op_of(alloc, digits, close)?));
    };
    if digits.is_none() && !close {
        Ok(Sending::Lines(file))
    } else {
        Err(SettingsFault::Usage)
    }
}

/// What a transaction is to do, by the word of `--data` and whether `--close` is there: exactly one has to be.
fn op_of(alloc: Global, digits: Option<&str>, close: bool) -> Result<Op, SettingsFault>
    ensures asked { Gives (λ op. op) result (op_of (option_map (λ word. word.now) digits.entry) close) }
    ensures lawful { IfOk result IsOp }
{
    match (digits, close) {
        (None, true) => Ok(Op::Close),
        (Some(digits), false) => Ok(Op::Bytes(bytes_of(alloc, digits)?)),
        _ => Err(SettingsFault::Usage),
    }
}

/// What a line of a file of transactions is to do: `close`, `-` for no bytes, or at most 1,024 bytes as hexadecimal digits.
///
/// The fault is `Usage` (1) for any other line, also an empty one, or `OutOfMemory` (2).
#[tactic(auto, unfolding(crate::specs::Words::line_op))]
pub fn line_op(alloc: Global, line: &str) -> Result<Op, SettingsFault>
    ensures asked { Gives (λ op. op) result (line_op line.now) }
    ensures lawful { IfOk result IsOp }
{
    if line == "close" {
        Ok(Op::Close)
    } else if line == "-" {
        Ok(Op::Bytes(Data::new()))
    } else if line.is_empty() {
        Err(SettingsFault::Usage)
    } else {
        op_of(alloc, Some(line), false)
    }
}
