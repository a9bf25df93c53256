//! Names, bytes and items as words.

ghost use Rattle.std.specs.Prelude.{◌≡◌, true, false, IfOk, IfSome, IsErrOf, is_some, nat_lt};
ghost use Rattle.std.specs.List.{list_all};
ghost use Rattle.std.specs.Char.{is_ascii_uppercase};
ghost use Rattle.schedule_text.specs.Names.{is_name};

use crate::fault::LineFault;
use crate::numbers::{list_in, number_in, number_in_u16, number_in_u32};
use crate::words::words_between;
use protocol::MOST_DATA;
use std::alloc::Global;
use transactions::{Data, Item, Op, Seq};
use world_parties::{Parties, Tagged};

/// The greatest number of letters in a name.
const MOST_LETTERS: usize = 8;

/// The name that the word is: one to eight letters A to Z.
#[tactic(auto, using(crate::proofs::Letters::letters_are_text))]
pub(crate) fn name_in(word: &[u8]) -> Option<&str>
    ensures name { is_some result ≡ is_name word.now }
    ensures same { IfSome result (λ name. name.now ≡ word.now) }
{
    if word.is_empty() || word.len() > MOST_LETTERS || !all_letters(word) {
        return None;
    }
    str::from_utf8(word).ok()
}

fn all_letters(word: &[u8]) -> bool
    ensures { result ≡ list_all is_ascii_uppercase word.now }
{
    word.iter().all(|byte| byte.is_ascii_uppercase())
}

/// The transactions that the words are.
pub(crate) fn items_in(
    alloc: Global,
    words: &[&[u8]],
    parties: &Parties,
) -> Result<Vec<Tagged>, LineFault> {
    let mut items = Vec::with_capacity(alloc, words.len())?;
    for word in words {
        items.push(tagged_in(alloc, word, parties)?)?;
    }
    Ok(items)
}

/// The transaction that the word is: an item, which may have `/LIST` behind it, the validators for
/// whom its tags are right.
pub(crate) fn tagged_in(
    alloc: Global,
    word: &[u8],
    parties: &Parties,
) -> Result<Tagged, LineFault> {
    let Some(end) = word.iter().position(|byte| *byte == b'/') else {
        return Ok(Tagged {
            item: item_in(alloc, word)?,
            right: None,
        });
    };
    let right = members_in(alloc, &word[end + 1..], parties.count())?;
    Ok(Tagged {
        item: item_in(alloc, &word[..end])?,
        right: Some(right),
    })
}

/// The validators of a list.
fn members_in(alloc: Global, word: &[u8], validators: u16) -> Result<Seq<u16>, LineFault> {
    let numbers = list_in(alloc, word)?;
    members_of(alloc, &numbers, validators)
}

/// The validators with these numbers.
fn members_of(alloc: Global, numbers: &[u64], validators: u16) -> Result<Seq<u16>, LineFault>
    ensures ok { IfOk result (λ members. (members ≡ numbers.now) × (list_all (λ number. nat_lt number validators) numbers.now ≡ true)) }
    ensures err { IsErrOf result LineFault.BadLine → list_all (λ number. nat_lt number validators) numbers.now ≡ false }
{
    let mut members = Vec::with_capacity(alloc, numbers.len())?;
    for number in numbers {
        if *number >= u64::from(validators) {
            return Err(LineFault::BadLine);
        }
        members.push(*number as u16)?;
    }
    Ok(Seq::from_vec(members))
}

/// The item that the word is.
fn item_in(alloc: Global, word: &[u8]) -> Result<Item, LineFault> {
    let words = words_between(alloc, word, b':')?;
    item_of(alloc, &words)
}

/// The item of these words.
fn item_of(alloc: Global, words: &[&[u8]]) -> Result<Item, LineFault> {
    let [sender, number, op] = words else {
        return Err(LineFault::BadLine);
    };
    let (client, session) = sender_in(sender).ok_or(LineFault::BadLine)?;
    let number = number_in(number).ok_or(LineFault::BadLine)?;
    let op = match *op {
        b"close" => Op::Close,
        bytes => sent_in(alloc, bytes)?,
    };
    Ok(Item {
        client,
        session,
        number,
        op,
    })
}

/// `C`, or `C.S` of a session after its first.
fn sender_in(word: &[u8]) -> Option<(u16, u32)> {
    let Some(dot) = word.iter().position(|byte| *byte == b'.') else {
        return Some((number_in_u16(word)?, 0));
    };
    let session = number_in_u32(&word[dot + 1..])?;
    if session == 0 {
        return None;
    }
    Some((number_in_u16(&word[..dot])?, session))
}

/// The bytes that a client sends.
pub(crate) fn sent_in(alloc: Global, word: &[u8]) -> Result<Op, LineFault> {
    if word.len() > 2 * MOST_DATA {
        return Err(LineFault::BadLine);
    }
    Ok(Op::Bytes(Data::from_vec(bytes_in(alloc, word)?)))
}

/// The bytes that the word is: two digits for each, or `-` for none.
pub(crate) fn bytes_in(alloc: Global, word: &[u8]) -> Result<Vec<u8>, LineFault> {
    if word == b"-".as_slice() {
        return Ok(Vec::new(alloc));
    }
    if word.is_empty() || !word.iter().all(|byte| is_digit(*byte)) {
        return Err(LineFault::BadLine);
    }
    match hex::decode(alloc, word) {
        Ok(bytes) => Ok(bytes),
        Err(hex::FromHexError::OutOfMemory) => Err(LineFault::OutOfMemory),
        Err(_) => Err(LineFault::BadLine),
    }
}

/// A hexadecimal digit in lower case.
fn is_digit(byte: u8) -> bool {
    matches!(byte, b'0'..=b'9' | b'a'..=b'f')
}
