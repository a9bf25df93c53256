//! The reading of a schedule with its report in it.

use crate::kind::Kind;
use crate::lanes::Lanes;
use crate::mark::{Arrow, Mark, Note};
use crate::messages::{Message, Messages};
use crate::place::Place;
use crate::rows::Rows;
use crate::verb::Verb;
use crate::words::{before, first_word};
use std::alloc::{AllocError, Global};

/// What the lines so far have drawn.
#[derive(Drop)]
pub(crate) struct Reading<'a> {
    pub(crate) lanes: Lanes,
    pub(crate) rows: Rows<'a>,
    pub(crate) arrows: Vec<Arrow>,
    pub(crate) notes: Vec<Note<'a>>,
    pub(crate) messages: Messages,
    /// Whether the validators have come to their ends.
    pub(crate) is_over: bool,
}

impl<'a> Reading<'a> {
    /// Begins with the row of the beginning.
    pub(crate) fn new(alloc: Global) -> Result<Reading<'a>, AllocError> {
        let mut rows = Rows::new(alloc);
        rows.begin("the beginning")?;
        Ok(Reading {
            lanes: Lanes::new(alloc),
            rows,
            arrows: Vec::new(alloc),
            notes: Vec::new(alloc),
            messages: Messages::new(alloc),
            is_over: false,
        })
    }

    /// Takes the lines of a text.
    pub(crate) fn take_text(&mut self, text: &'a [u8]) -> Result<(), AllocError> {
        for line in text.split(|byte| *byte == b'\n') {
            if let Ok(line) = str::from_utf8(line) {
                self.take_line(line)?;
            }
        }
        Ok(())
    }

    /// Takes a line. An empty one and a comment that is no line of a report say nothing.
    fn take_line(&mut self, line: &'a str) -> Result<(), AllocError> {
        if let Some(reported) = line.strip_prefix("#    ") {
            return self.take_reported(reported);
        }
        if line.is_empty() || line.starts_with('#') {
            return Ok(());
        }
        let (word, rest) = first_word(line);
        match word {
            "powers" => self.lanes.add_validators(rest.split(' ').count()),
            "liars" => {
                self.take_liars(rest);
                Ok(())
            }
            "clients" | "value" => Ok(()),
            _ => {
                self.rows.begin(line)?;
                self.take_executed(word, rest)
            }
        }
    }

    /// `liars V V ..`
    fn take_liars(&mut self, words: &str) {
        for word in words.split(' ') {
            self.lanes.note_liar(word);
        }
    }

    /// Takes an executed line.
    fn take_executed(&mut self, word: &'a str, rest: &'a str) -> Result<(), AllocError> {
        match Verb::of_word(word) {
            Some(Verb::Pass) => self.pass(),
            Some(Verb::Deliver) => self.take_deliver(rest),
            Some(Verb::Propose) => self.take_said(Kind::Proposal, rest),
            Some(Verb::Bundle) => self.take_said(Kind::Bundle, rest),
            Some(Verb::Vote) => self.take_vote(rest),
            Some(Verb::Tx) => self.take_tx(rest),
            Some(Verb::Raw) => self.take_raw(rest),
            Some(Verb::Open) => self.take_open(word, rest),
            Some(Verb::Timeout) => self.take_asked(Mark::Timeout, word, rest),
            Some(Verb::Restart) => self.take_asked(Mark::Restarted, word, rest),
            Some(Verb::Fail) => self.take_asked(Mark::Failing, word, rest),
            Some(Verb::Ask | Verb::Resend | Verb::State) => {
                self.take_asked(Mark::Asked, word, rest)
            }
            None => Ok(()),
        }
    }

    /// `deliver M P`
    fn take_deliver(&mut self, words: &str) -> Result<(), AllocError> {
        let (number, to) = first_word(words);
        match (number.parse::<usize>(), self.lanes.of_validator(to)) {
            (Ok(number), Some(lane)) => self.bring(number, lane),
            _ => Ok(()),
        }
    }

    /// `pass`
    fn pass(&mut self) -> Result<(), AllocError> {
        for number in self.messages.passed()..self.messages.count() {
            self.bring_to_all(number)?;
        }
        self.messages.pass();
        Ok(())
    }

    /// Brings a message to each correct validator but its sender where it was not brought.
    fn bring_to_all(&mut self, number: usize) -> Result<(), AllocError> {
        for lane in 0..self.lanes.validators() {
            if self.lanes.is_correct(lane) && self.messages.is_wanted(number, lane) {
                self.bring(number, lane)?;
            }
        }
        Ok(())
    }

    /// Brings a message to a lane.
    fn bring(&mut self, number: usize, lane: usize) -> Result<(), AllocError> {
        let Some(message) = self.messages.get(number) else {
            return Ok(());
        };
        self.messages.note(number, lane)?;
        self.come(message.kind, Some(message.from), lane)
    }

    /// Draws a message that comes to a lane in the present row.
    fn come(&mut self, kind: Kind, from: Option<Place>, lane: usize) -> Result<(), AllocError> {
        let row = self.rows.present();
        let to = self.lanes.share_place(row, lane);
        self.arrows.push(Arrow { kind, from, to })?;
        Ok(())
    }

    /// `vote S P KIND H R CONTENT`
    fn take_vote(&mut self, words: &'a str) -> Result<(), AllocError> {
        let (by, rest) = first_word(words);
        let (to, rest) = first_word(rest);
        let (kind, rest) = first_word(rest);
        match Kind::of_word(kind) {
            Some(kind) => self.say(kind, by, to, rest),
            None => Ok(()),
        }
    }

    /// `propose S P ..` and `bundle S P ..`
    fn take_said(&mut self, kind: Kind, words: &'a str) -> Result<(), AllocError> {
        let (by, rest) = first_word(words);
        let (to, rest) = first_word(rest);
        self.say(kind, by, to, rest)
    }

    /// Draws a message of a Byzantine validator that the row's line brings.
    fn say(&mut self, kind: Kind, by: &str, to: &str, text: &'a str) -> Result<(), AllocError> {
        match self.lanes.of_validator(by) {
            Some(sender) => self.say_from(kind, sender, to, text),
            None => Ok(()),
        }
    }

    /// Draws a message that the row's line brings from this lane.
    fn say_from(
        &mut self,
        kind: Kind,
        sender: usize,
        to: &str,
        text: &'a str,
    ) -> Result<(), AllocError> {
        let Some(receiver) = self.lanes.of_validator(to) else {
            return Ok(());
        };
        let from = self.note(sender, Mark::Said(kind), kind.word(), text)?;
        self.come(kind, Some(from), receiver)
    }

    /// `tx P ITEM`
    fn take_tx(&mut self, words: &'a str) -> Result<(), AllocError> {
        let (to, item) = first_word(words);
        match self.lanes.of_client(before(item, ':'))? {
            Some(sender) => self.say_from(Kind::Transaction, sender, to, item),
            None => Ok(()),
        }
    }

    /// `raw P BYTES`
    fn take_raw(&mut self, words: &str) -> Result<(), AllocError> {
        let (to, _) = first_word(words);
        match self.lanes.of_validator(to) {
            Some(lane) => self.come(Kind::Raw, None, lane),
            None => Ok(()),
        }
    }

    /// `open C`
    fn take_open(&mut self, word: &'a str, client: &str) -> Result<(), AllocError> {
        match self.lanes.of_client(client)? {
            Some(lane) => self.mark(lane, Mark::Asked, word, ""),
            None => Ok(()),
        }
    }

    /// Takes a line whose second word is a validator's number.
    fn take_asked(&mut self, mark: Mark, word: &'a str, rest: &'a str) -> Result<(), AllocError> {
        let (validator, rest) = first_word(rest);
        match self.lanes.of_validator(validator) {
            Some(lane) => self.mark(lane, mark, word, rest),
            None => Ok(()),
        }
    }

    /// Takes a line of the report.
    fn take_reported(&mut self, line: &'a str) -> Result<(), AllocError> {
        let (first, rest) = first_word(line);
        if first.starts_with('v') {
            self.take_happened(first, rest)
        } else {
            self.take_released(first, rest)
        }
    }

    /// `M vP KIND ..` or `M cC tx ..`
    fn take_released(&mut self, number: &'a str, rest: &'a str) -> Result<(), AllocError> {
        let (sender, text) = first_word(rest);
        let (kind, _) = first_word(text);
        let Some(kind) = Kind::of_word(kind) else {
            return Ok(());
        };
        let Some(lane) = self.lanes.of_party(sender)? else {
            return Ok(());
        };
        let from = self.note(lane, Mark::Sent(kind), number, text)?;
        self.messages.push(Message { kind, from })
    }

    /// `vP decides ..`, `vP refuses ..` or `vP at ..`. The lines of a state are not drawn.
    fn take_happened(&mut self, party: &str, text: &'a str) -> Result<(), AllocError> {
        let (word, rest) = first_word(text);
        let Some(lane) = self.lanes.of_party(party)? else {
            return Ok(());
        };
        match word {
            "decides" => self.mark(lane, Mark::Decided, word, rest),
            "refuses" => self.mark(lane, Mark::Refused, word, rest),
            "at" => {
                self.end()?;
                self.mark(lane, Mark::Ended, word, rest)
            }
            _ => Ok(()),
        }
    }

    /// Begins the row of the validators' ends.
    fn end(&mut self) -> Result<(), AllocError> {
        if !self.is_over {
            self.rows.begin("the end")?;
            self.is_over = true;
        }
        Ok(())
    }

    /// Marks a lane in the present row.
    fn mark(
        &mut self,
        lane: usize,
        mark: Mark,
        head: &'a str,
        text: &'a str,
    ) -> Result<(), AllocError> {
        self.note(lane, mark, head, text)?;
        Ok(())
    }

    /// Marks a lane in the present row, and returns the place.
    fn note(
        &mut self,
        lane: usize,
        mark: Mark,
        head: &'a str,
        text: &'a str,
    ) -> Result<Place, AllocError> {
        let row = self.rows.present();
        let place = self.lanes.take_place(row, lane);
        self.notes.push(Note {
            place,
            mark,
            head,
            text,
        })?;
        self.rows.make_room(place.slot);
        Ok(place)
    }
}
