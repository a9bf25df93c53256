//! Lists in one word, and bytes as hexadecimal digits.

ghost use Rattle.std.specs.Prelude.{◌≡◌, ◌≤◌, length, map, IfOk};
ghost use Rattle.std.specs.List.{slice_split};
ghost use Rattle.std.specs.Result.{result_ok};
ghost use Rattle.hex.specs.Hex.{decode_of};
ghost use Rattle.node_settings.specs.Words.{Gives, or_usage, is_comma, power_in, every_number, powers_of, bytes_of};

use crate::invocation::SettingsFault;
use crate::options::number_between;
use hex::FromHexError;
use powers::Powers;
use protocol::MOST_DATA;
use std::alloc::{AllocError, Global};
use transactions::Data;

/// The words between the commas of a list.
pub fn words_of(alloc: Global, list: &str) -> Result<Vec<&str>, AllocError>
    ensures { IfOk result (λ words. map (λ word. word.now) words.items ≡ slice_split is_comma list.now) }
{
    list.split(',').collect(alloc)
}

/// The numbers of a list of powers.
fn numbers_of(alloc: Global, words: &[&str]) -> Result<Vec<u32>, SettingsFault>
    ensures { Gives (λ numbers. numbers.items) result (every_number (map power_in (map (λ word. word.now) words.now))) }
{
    let mut numbers = Vec::with_capacity(alloc, words.len())?;
    for word in words {
        let Some(number) = number_between(word, 0, u64::from(u32::MAX)) else {
            return Err(SettingsFault::Usage);
        };
        numbers.push(number as u32)?;
    }
    Ok(numbers)
}

/// The powers that a list gives, where they are lawful.
#[tactic(auto, unfolding(crate::specs::Words::powers_of))]
pub fn powers_of(alloc: Global, list: &str) -> Result<Powers, SettingsFault>
    ensures { Gives (λ powers. powers) result (powers_of list.now) }
{
    let words = words_of(alloc, list)?;
    let numbers = numbers_of(alloc, &words)?;
    Powers::new(numbers).ok().ok_or(SettingsFault::Usage)
}

/// The bytes that hexadecimal digits of either case are.
fn decoded(alloc: Global, digits: &str) -> Result<Vec<u8>, SettingsFault>
    ensures { Gives (λ bytes. bytes.items) result (or_usage (result_ok (decode_of digits.now))) }
{
    match hex::decode(alloc, digits.as_bytes()) {
        Ok(bytes) => Ok(bytes),
        Err(FromHexError::OutOfMemory) => Err(SettingsFault::OutOfMemory),
        Err(_) => Err(SettingsFault::Usage),
    }
}

/// The bytes that hexadecimal digits of either case are, at most 1,024.
#[tactic(auto, unfolding(crate::specs::Words::bytes_of))]
pub fn bytes_of(alloc: Global, digits: &str) -> Result<Data, SettingsFault>
    ensures asked { Gives (λ bytes. bytes) result (bytes_of digits.now) }
    ensures lawful { IfOk result (λ bytes. length bytes ≤ 1024) }
{
    let bytes = decoded(alloc, digits)?;
    if bytes.len() <= MOST_DATA {
        Ok(Data::from_vec(bytes))
    } else {
        Err(SettingsFault::Usage)
    }
}
