//! What is logged.

ghost use Rattle.std.specs.Prelude.{Some, []};
ghost use Rattle.log.specs.Level.{allows};

use log::kv::Source;
use log::span::Spans;
use log::{LevelFilter, Line, Log, Metadata, Record};
use std::fmt::Display;

/// The runtime `rt`, with the records up to `level` on its standard error, a line for each. A write that fails is passed over.
#[derive(Clone, Copy, Debug, Drop)]
pub struct Leveled<'a, R> {
    pub rt: &'a R,
    pub level: LevelFilter,
}

impl<R: Eprint> Log for Leveled<'_, R> {
    ghost enables = { λ leveled level _. Some (allows leveled.level level) };

    ghost target_of = { λ _. Some [] };

    fn enabled(&self, metadata: &Metadata<'_>) -> bool {
        self.level.allows(metadata.level())
    }

    fn log<D: Display, K: Source, S: Spans>(&self, record: &Record<'_, D, K, S>) {
        if self.level.allows(record.level()) {
            let _ = self.rt.eprintln(Line::new(record));
        }
    }

    fn flush(&self) {}

    fn target(&self) -> &str {
        ""
    }
}
