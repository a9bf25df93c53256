//! One line of a key file.

ghost use Rattle.std.specs.Prelude.{◌≡◌, ◌∷◌, [], MatchOption};
ghost use Rattle.std.specs.List.{slice_split};
ghost use Rattle.authenticators.specs.Keys.{is_mine, is_between};
ghost use Rattle.authenticators.specs.Lines.{is_space, number_in, party_in, line_of, key_line};

use crate::Party;
use hex::FromHex;

/// How many clients there may be: their numbers are below it.
pub const MOST_CLIENTS: u16 = 1024;

/// The key of what one party sends to a validator.
#[derive(Clone, Copy, Debug)]
pub struct KeyLine {
    pub from: Party,
    /// The validator that receives.
    pub to: u16,
    pub key: [u8; 32],
}

impl KeyLine {
    /// Reads a line `FROM TO KEY`, without its line feed.
    #[tactic(auto, using(crate::proofs::Splits::four_words), unfolding(crate::specs::Lines::key_line))]
    pub fn read(line: &[u8]) -> Option<KeyLine>
        ensures { result ≡ key_line line.now }
    {
        let (from, rest) = cut_at_space(line)?;
        let (to, key) = cut_at_space(rest)?;
        match cut_at_space(key) {
            Some(_) => None,
            None => line_of(from, to, key),
        }
    }

    /// Whether the line is about parties in range, of which `me` is one.
    #[tactic(auto, using(crate::proofs::Parties::eq_is_same))]
    pub fn is_mine(&self, me: Party, validators: u16) -> bool
        ensures { result ≡ is_mine me validators self.now }
    {
        let is_known = match self.from {
            Party::Validator(number) => number < validators,
            Party::Client(number) => number < MOST_CLIENTS,
        };
        is_known && self.to < validators && (self.from == me || Party::Validator(self.to) == me)
    }

    /// Whether the line is about this sender and this receiver.
    #[tactic(auto, using(crate::proofs::Parties::eq_is_same))]
    pub fn is_between(&self, from: Party, to: u16) -> bool
        ensures { result ≡ is_between from to self.now }
    {
        self.from == from && self.to == to
    }
}

/// Reads the words of a line.
#[tactic(auto, unfolding(crate::specs::Lines::line_of))]
fn line_of(from: &[u8], to: &[u8], key: &[u8]) -> Option<KeyLine>
    ensures { result ≡ line_of from.now to.now key.now }
{
    let from = party_in(from)?;
    let Party::Validator(to) = party_in(to)? else {
        return None;
    };
    let key = <[u8; 32] as FromHex>::from_hex(key).ok()?;
    Some(KeyLine { from, to, key })
}

/// Reads `v3` or `c7`.
#[tactic(auto, unfolding(crate::specs::Lines::party_in))]
fn party_in(word: &[u8]) -> Option<Party>
    ensures { result ≡ party_in word.now }
{
    let (letter, digits) = word.split_first()?;
    let number = number_in(digits)?;
    match *letter {
        b'v' => Some(Party::Validator(number)),
        b'c' => Some(Party::Client(number)),
        _ => None,
    }
}

/// Reads a number without leading zeros.
#[tactic(auto, unfolding(crate::specs::Lines::number_in))]
fn number_in(digits: &[u8]) -> Option<u16>
    ensures { result ≡ number_in digits.now }
{
    if digits.is_empty() || (digits.len() > 1 && digits[0] == b'0') {
        return None;
    }
    let mut number = 0;
    for digit in digits {
        if !digit.is_ascii_digit() {
            return None;
        }
        number = 10 * number + u32::from(*digit - b'0');
        if number > u32::from(u16::MAX) {
            return None;
        }
    }
    Some(number as u16)
}

/// The bytes before the first space, and those after it.
fn cut_at_space(bytes: &[u8]) -> Option<(&[u8], &[u8])>
    ensures { MatchOption result
        (slice_split is_space bytes.now ≡ bytes.now ∷ [])
        (λ parts. slice_split is_space bytes.now ≡ parts.0.now ∷ slice_split is_space parts.1.now) }
{
    let end = bytes.iter().position(|byte| *byte == b' ')?;
    Some((&bytes[..end], &bytes[end + 1..]))
}
