//! What the options of a command line are given.

ghost use Rattle.std.specs.Prelude.{◌≡◌, ◌≤◌, IfOk, IfSome, option_map};
ghost use Rattle.std.specs.Char.{is_ascii_digit};
ghost use Rattle.std.specs.List.{list_all};
ghost use Rattle.std.specs.Result.{result_map_both};
ghost use Rattle.clap.specs.Words.{first_of, rows_of, found_of};
ghost use Rattle.node_settings.specs.Words.{decimal_in, number_between, or_usage, given, number_given, number_or_none, number_or, validators_of, is_flagged};

use crate::invocation::SettingsFault;
use clap::ArgMatches;
use protocol::MOST_VALIDATORS;

/// The word that an option was given.
pub fn word_of<'a>(found: &ArgMatches<'a>, name: &str) -> Option<&'a str>
    ensures { option_map (λ word. word.now) result ≡ first_of name.now (rows_of (found_of found.now)) }
{
    found.get_str(name)
}

/// The word of an option that has to be there.
#[tactic(auto, unfolding(crate::specs::Words::given))]
pub fn word<'a>(found: &ArgMatches<'a>, name: &str) -> Result<&'a str, SettingsFault>
    ensures { result_map_both (λ word. word.now) (λ fault. fault) result ≡ given name.now (rows_of (found_of found.now)) }
{
    word_of(found, name).ok_or(SettingsFault::Usage)
}

fn all_digits(text: &str) -> bool
    ensures { result ≡ list_all is_ascii_digit text.now }
{
    text.as_bytes().iter().all(|byte| byte.is_ascii_digit())
}

/// The number that decimal digits are, where it is at most the greatest `u64`.
fn decimal_in(text: &str) -> Option<u64>
    ensures { result ≡ decimal_in text.now }
{
    if all_digits(text) {
        text.parse::<u64>().ok()
    } else {
        None
    }
}

/// The number that a word is, where it is within these bounds.
pub fn number_between(word: &str, least: u64, most: u64) -> Option<u64>
    ensures number { result ≡ number_between least most word.now }
    ensures within { IfSome result (λ number. (least ≤ number) × (number ≤ most)) }
{
    let number = decimal_in(word)?;
    if least <= number && number <= most {
        Some(number)
    } else {
        None
    }
}

/// The number that an option was given, within these bounds.
#[tactic(auto, unfolding(crate::specs::Words::number_given))]
pub fn number(
    found: &ArgMatches<'_>,
    name: &str,
    least: u64,
    most: u64,
) -> Result<u64, SettingsFault>
    ensures number { result ≡ number_given least most name.now (rows_of (found_of found.now)) }
    ensures within { IfOk result (λ number. (least ≤ number) × (number ≤ most)) }
{
    number_between(word(found, name)?, least, most).ok_or(SettingsFault::Usage)
}

/// The number of an option that may be left out.
#[tactic(auto, unfolding(crate::specs::Words::number_or_none))]
pub fn number_or_none(
    found: &ArgMatches<'_>,
    name: &str,
    least: u64,
    most: u64,
) -> Result<Option<u64>, SettingsFault>
    ensures number { result ≡ number_or_none least most name.now (rows_of (found_of found.now)) }
    ensures within { IfOk result (λ given. IfSome given (λ number. (least ≤ number) × (number ≤ most))) }
{
    match word_of(found, name) {
        Some(word) => match number_between(word, least, most) {
            Some(number) => Ok(Some(number)),
            None => Err(SettingsFault::Usage),
        },
        None => Ok(None),
    }
}

/// The number of an option, or another one where the option is left out.
#[tactic(auto, unfolding(crate::specs::Words::number_or))]
pub fn number_or(
    found: &ArgMatches<'_>,
    name: &str,
    other: u64,
    least: u64,
    most: u64,
) -> Result<u64, SettingsFault>
    requires other { (least ≤ other) × (other ≤ most) }
    ensures number { result ≡ number_or other least most name.now (rows_of (found_of found.now)) }
    ensures within { IfOk result (λ number. (least ≤ number) × (number ≤ most)) }
{
    Ok(number_or_none(found, name, least, most)?.unwrap_or(other))
}

/// How many validators there are, 2 to 128.
#[tactic(auto, unfolding(crate::specs::Words::validators_of))]
pub fn validators_of(found: &ArgMatches<'_>) -> Result<u16, SettingsFault>
    ensures asked { result ≡ validators_of (rows_of (found_of found.now)) }
    ensures lawful { IfOk result (λ count. (2 ≤ count) × (count ≤ 128)) }
{
    Ok(number(found, "validators", 2, MOST_VALIDATORS as u64)? as u16)
}

/// Whether a flag was given: its word is then `true`.
#[tactic(auto, unfolding(crate::specs::Words::is_flagged))]
pub fn is_flagged(found: &ArgMatches<'_>, name: &str) -> bool
    ensures { result ≡ is_flagged name.now (rows_of (found_of found.now)) }
{
    matches!(word_of(found, name), Some("true"))
}
