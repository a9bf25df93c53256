//! Numbers as words.

ghost use Rattle.std.specs.Prelude.{◌≡◌, ◌-◌, ◌^◌};
ghost use Rattle.std.specs.List.{list_all};
ghost use Rattle.std.specs.Char.{is_ascii_digit};
ghost use Rattle.schedule_text.specs.Numbers.{is_number, number, below, number_below, number_up_to};

use crate::fault::LineFault;
use crate::words::words_between;
use std::alloc::Global;

fn all_digits(word: &[u8]) -> bool
    ensures { result ≡ list_all is_ascii_digit word.now }
{
    word.iter().all(|byte| byte.is_ascii_digit())
}

/// Whether the word is a decimal number: digits alone, of which the first is 0 in `0` alone.
fn is_number(word: &[u8]) -> bool
    ensures { result ≡ is_number word.now }
{
    if word.is_empty() {
        return false;
    }
    (word[0] != b'0' || word.len() == 1) && all_digits(word)
}

/// The number that digits are; none if it is above the greatest `u64`.
fn value_of(digits: &[u8]) -> Option<u64>
    ensures { result ≡ below (2 ^ 64) (number digits.now) }
{
    let mut value = 0u64;
    for digit in digits {
        let units = u64::from(digit.saturating_sub(b'0'));
        value = value.checked_mul(10)?.checked_add(units)?;
    }
    Some(value)
}

/// The number that the word is; none if it is above the greatest `u64`, too.
pub(crate) fn number_in(word: &[u8]) -> Option<u64>
    ensures { result ≡ number_below (2 ^ 64) word.now }
{
    if is_number(word) {
        value_of(word)
    } else {
        None
    }
}

/// The number that the word is, or the greatest `u64` where it is above that.
pub(crate) fn count_in(word: &[u8]) -> Option<u64>
    ensures { result ≡ number_up_to (2 ^ 64 - 1) word.now }
{
    if is_number(word) {
        Some(value_of(word).unwrap_or(u64::MAX))
    } else {
        None
    }
}

/// The number of a client that the word is, or of clients.
pub(crate) fn number_in_u16(word: &[u8]) -> Option<u16>
    ensures { result ≡ number_below (2 ^ 16) word.now }
{
    let number = number_in(word)?;
    u16::try_from(number).ok()
}

/// The round or the power that the word is.
pub(crate) fn number_in_u32(word: &[u8]) -> Option<u32>
    ensures { result ≡ number_below (2 ^ 32) word.now }
{
    let number = number_in(word)?;
    u32::try_from(number).ok()
}

/// The numbers that the words are; one above the greatest `u64` is that.
pub(crate) fn counts_in(alloc: Global, words: &[&[u8]]) -> Result<Vec<u64>, LineFault> {
    let mut numbers = Vec::with_capacity(alloc, words.len())?;
    for word in words {
        let number = count_in(word).ok_or(LineFault::BadLine)?;
        numbers.push(number)?;
    }
    Ok(numbers)
}

/// The numbers of a list, with commas between them.
pub(crate) fn list_in(alloc: Global, word: &[u8]) -> Result<Vec<u64>, LineFault> {
    let words = words_between(alloc, word, b',')?;
    counts_in(alloc, &words)
}
