//! Why a text gives no words.

ghost use Rattle.std.specs.Prelude.{◌≡◌};
ghost use Rattle.config_file.specs.Failures.{of_fault};

use node_settings::{ConfigTrouble, Failure};
use std::alloc::{AllocError, AllocFailed};

/// Why the text of a configuration file gives no words.
#[derive(Clone, Copy, Debug, PartialEq, Eq)]
pub enum ConfigFault {
    /// It isn't TOML, from this line on, of which the first is 1.
    NotToml(u64),
    /// An entry is no option of `run`, or has a value that no option takes.
    NotAnOption,
    OutOfMemory,
}

impl From<AllocError> for ConfigFault {
    ghost use Rattle.config_file.specs.declared.fault.ConfigFault.TheVariants.{OutOfMemory};

    ghost from_gives = { λ _ fault. fault ≡ OutOfMemory };

    fn from(_e: AllocError) -> ConfigFault {
        ConfigFault::OutOfMemory
    }
}

impl<T: Drop> From<AllocFailed<T>> for ConfigFault {
    ghost use Rattle.config_file.specs.declared.fault.ConfigFault.TheVariants.{OutOfMemory};

    ghost from_gives = { λ _ fault. fault ≡ OutOfMemory };

    fn from(_e: AllocFailed<T>) -> ConfigFault {
        ConfigFault::OutOfMemory
    }
}

impl From<ConfigFault> for Failure {
    ghost from_gives = { λ fault failure. failure ≡ of_fault fault };

    fn from(fault: ConfigFault) -> Failure {
        match fault {
            ConfigFault::NotToml(line) => Failure::Config(ConfigTrouble::NotToml(line)),
            ConfigFault::NotAnOption => Failure::Config(ConfigTrouble::NotAnOption),
            ConfigFault::OutOfMemory => Failure::OutOfMemory,
        }
    }
}
