//! What the words behind `journal` ask for.

ghost use Rattle.std.specs.Prelude.{◌≡◌};
ghost use Rattle.clap.specs.Words.{found_of, rows_of};
ghost use Rattle.node_settings.specs.Words.{Gives};
ghost use Rattle.node_settings.specs.Looking.{journal_words, form_of, journal_of};

use crate::invocation::SettingsFault;
use crate::options::{is_flagged, number_or_none, word};
use clap::ArgMatches;

/// How what a journal holds is printed.
#[derive(Clone, Copy, Debug, PartialEq, Eq)]
pub enum JournalForm {
    /// A line for each entry.
    Lines,
    /// A JSON object for each entry, a line each.
    Json,
    /// The delivered items, as `tmnode run` prints them.
    List,
}

/// The settings of `tmnode journal`.
#[derive(Clone, Copy, Debug, PartialEq, Eq)]
pub struct JournalSettings<'a> {
    /// The journal's name.
    pub file: &'a str,
    /// The height of which alone it is printed; of all where none is named.
    pub height: Option<u64>,
    /// Whether to go on as the journal grows.
    pub follows: bool,
    pub form: JournalForm,
}

impl<'a> JournalSettings<'a> {
    /// Those of the words behind `journal`.
    #[tactic(auto, unfolding(crate::specs::Looking::journal_of))]
    pub(crate) fn read(found: &ArgMatches<'a>) -> Result<JournalSettings<'a>, SettingsFault>
        ensures { Gives journal_words result (journal_of (rows_of (found_of found.now))) }
    {
        let height = number_or_none(found, "height", 0, u64::MAX)?;
        let form = form_of(is_flagged(found, "json"), is_flagged(found, "list"))?;
        let follows = is_flagged(found, "follow");
        let file = word(found, "file")?;
        Ok(JournalSettings {
            file,
            height,
            follows,
            form,
        })
    }
}

/// How it is printed, by whether `--json` and `--list` are there: not both.
fn form_of(json: bool, list: bool) -> Result<JournalForm, SettingsFault>
    ensures { result ≡ form_of json list }
{
    match (json, list) {
        (false, false) => Ok(JournalForm::Lines),
        (true, false) => Ok(JournalForm::Json),
        (false, true) => Ok(JournalForm::List),
        (true, true) => Err(SettingsFault::Usage),
    }
}
