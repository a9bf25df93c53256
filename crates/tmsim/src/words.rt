//! What the words of the command line ask for.

/// What is printed of a run.
#[derive(Clone, Copy)]
pub(crate) enum Form {
    Report,
    /// The schedule with its report in it.
    Text,
}

/// What is asked for.
#[derive(Clone, Copy)]
pub(crate) enum Wanted<'a> {
    Help,
    /// The run of the schedule in the file of this name.
    Print(Form, &'a str),
    /// A picture of such a run.
    Chart { picture: &'a str, name: &'a str },
}

impl<'a> Wanted<'a> {
    /// Returns what the words ask for, behind the program's name.
    pub(crate) fn of_words(words: &'a [String]) -> Option<Wanted<'a>> {
        match words {
            [only] if only.as_str() == "--help" => Some(Wanted::Help),
            [name] => Some(Wanted::Print(Form::Report, name.as_str())),
            [option, name] if option.as_str() == "--follow" => {
                Some(Wanted::Print(Form::Text, name.as_str()))
            }
            [option, picture, name] if option.as_str() == "--chart" => Some(Wanted::Chart {
                picture: picture.as_str(),
                name: name.as_str(),
            }),
            _ => None,
        }
    }
}
