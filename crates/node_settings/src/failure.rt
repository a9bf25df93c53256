//! Why the program ends early: the line that it writes on standard error, and its exit status.

ghost use Rattle.std.specs.Prelude.{◌≡◌, Some};
ghost use Rattle.node_settings.specs.Failures.{keys_number, journal_number, status_of, line_of, of_settings, of_keys, of_journal};

use crate::invocation::SettingsFault;
use authenticators::KeysFault;
use std::fmt;
use vote_journal::JournalFault;

/// Why a key file gives no ring, or isn't made.
#[derive(Clone, Copy, Debug, PartialEq, Eq)]
pub enum KeysTrouble {
    /// 0: the file can't be opened, or be read to its end.
    Unreadable = 0,
    /// 1: a line is no key line of this party.
    BadLine = 1,
    /// 2: a key is missing.
    Missing = 2,
    /// 3: a key comes twice.
    Repeated = 3,
    /// 4: a key file can't be made or be written, or is there already.
    Unwritten = 4,
    /// 5: the system gave no random bytes.
    NoBytes = 5,
}

impl KeysTrouble {
    /// Its number, 0 to 5.
    pub fn number(self) -> u8
        ensures { result ≡ keys_number self }
    {
        self as u8
    }
}

/// Why a journal can't be opened.
#[derive(Clone, Copy, Debug, PartialEq, Eq)]
pub enum JournalTrouble {
    /// 0: the file can't be opened.
    Unopened = 0,
    /// 1: the device failed.
    Failed = 1,
    /// 3: the bytes are no journal of this validator.
    BadRecord = 3,
}

impl JournalTrouble {
    /// Its number: 0, 1 or 3.
    pub fn number(self) -> u8
        ensures { result ≡ journal_number self }
    {
        self as u8
    }
}

/// Why a configuration file gives no words.
#[derive(Clone, Copy, Debug, PartialEq, Eq)]
pub enum ConfigTrouble {
    /// 0: the file can't be opened, or be read to its end, or is no UTF-8.
    Unreadable,
    /// 1: it isn't TOML, from this line on, of which the first is 1.
    NotToml(u64),
    /// 2: an entry is named like no option of `run`, or like `config`; or its value is no text, no whole number from 0 on, and
    /// no list of these.
    NotAnOption,
}

/// Why the program ends early. It is shown as the line on standard error, without its line feed.
#[derive(Clone, Copy, Debug, PartialEq, Eq)]
pub enum Failure {
    /// The words are no command line of the program.
    Usage,
    Keys(KeysTrouble),
    Journal(JournalTrouble),
    /// The configuration file gives no words.
    Config(ConfigTrouble),
    /// The own address can't be listened on.
    CannotListen,
    /// The validator's address can't be connected to, or the connection ends before a reply.
    CannotConnect,
    /// The node halted: its store failed.
    Halted,
    /// Memory was refused.
    OutOfMemory,
    /// This line of the file of transactions, from 1 on, is none, or has no number any more; 0 where the file can't be read.
    Line(u64),
}

impl Failure {
    /// The exit status, 2 to 8.
    pub fn status(self) -> u8
        ensures { result ≡ status_of self }
    {
        match self {
            Failure::Usage | Failure::Config(_) => 2,
            Failure::Keys(_) => 3,
            Failure::Journal(_) => 4,
            Failure::CannotListen | Failure::CannotConnect => 5,
            Failure::Halted => 6,
            Failure::OutOfMemory => 7,
            Failure::Line(_) => 8,
        }
    }
}

impl fmt::Display for Failure {
    ghost output = { λ failure. Some (line_of failure) };

    fn fmt<W: fmt::Write>(&self, f: &mut fmt::Formatter<W>) -> fmt::Result {
        match self {
            Failure::Usage => f.write_str("tmnode: usage"),
            Failure::Keys(trouble) => write!(f, "tmnode: keys {}", trouble.number()),
            Failure::Journal(trouble) => write!(f, "tmnode: journal {}", trouble.number()),
            Failure::Config(ConfigTrouble::Unreadable) => f.write_str("tmnode: config 0"),
            Failure::Config(ConfigTrouble::NotToml(line)) => {
                write!(f, "tmnode: config 1 line {line}")
            }
            Failure::Config(ConfigTrouble::NotAnOption) => f.write_str("tmnode: config 2"),
            Failure::CannotListen => f.write_str("tmnode: cannot listen"),
            Failure::CannotConnect => f.write_str("tmnode: cannot connect"),
            Failure::Halted => f.write_str("tmnode: halted"),
            Failure::OutOfMemory => f.write_str("tmnode: out of memory"),
            Failure::Line(number) => write!(f, "tmnode: line {number}"),
        }
    }
}

impl From<SettingsFault> for Failure {
    ghost from_gives = { λ fault failure. failure ≡ of_settings fault };

    fn from(fault: SettingsFault) -> Failure {
        match fault {
            SettingsFault::Usage => Failure::Usage,
            SettingsFault::OutOfMemory => Failure::OutOfMemory,
        }
    }
}

impl From<KeysFault> for Failure {
    ghost from_gives = { λ fault failure. failure ≡ of_keys fault };

    fn from(fault: KeysFault) -> Failure {
        match fault {
            KeysFault::BadLine => Failure::Keys(KeysTrouble::BadLine),
            KeysFault::Missing => Failure::Keys(KeysTrouble::Missing),
            KeysFault::Repeated => Failure::Keys(KeysTrouble::Repeated),
            KeysFault::OutOfMemory => Failure::OutOfMemory,
        }
    }
}

impl From<JournalFault> for Failure {
    ghost from_gives = { λ fault failure. failure ≡ of_journal fault };

    fn from(fault: JournalFault) -> Failure {
        match fault {
            JournalFault::Failed => Failure::Journal(JournalTrouble::Failed),
            JournalFault::OutOfMemory => Failure::OutOfMemory,
            JournalFault::BadRecord => Failure::Journal(JournalTrouble::BadRecord),
        }
    }
}
