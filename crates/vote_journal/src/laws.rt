//! What holds of every journal.

ghost use Rattle.vote_journal.specs.Kept.{KeptLaw};
ghost use Rattle.vote_journal.specs.Serving.{ServedLaw};
ghost use Rattle.vote_journal.specs.Stopping.{StoppedHeadlineLaw, StoppedLaw};
ghost use Rattle.vote_journal.specs.Laws.{FollowsLaw, JournalLaw, OneJournalLaw, StopLaw, TornLaw};

use crate::store::Store;

/// Bytes are the journal of one list of records at most: what is read is all that could be.
pub fn one_journal_law()
    ensures { OneJournalLaw }
{}

/// Over any calls of `open`, `save` and `close` and any stops between and within them, by what those contracts say of a
/// store: opening again finds the records of the last opening, those whose saves answered Ok since, in order, and at most
/// the one that was being saved; and it never answers `BadRecord`.
pub fn journal_law<S: Store>()
    ensures { JournalLaw S.seen S.may_leave }
{}

/// Where some records stood and one that may follow them was being saved, a stop leaves a journal of those records, or of
/// those and this one.
pub fn stop_law()
    ensures { StopLaw }
{}

/// What a second stop leaves of a record that was cut short is no whole record either.
pub fn torn_law()
    ensures { TornLaw }
{}

/// Each record that a validator of any run has saved may follow those before it, and its decisions are made as their records
/// have to be: what correct validators save is never refused, as it is opened, for its height, its place in a round, its
/// quorum or its value, nor for its sender, its id or the order of its precommits.
pub fn follows_law()
    ensures { FollowsLaw }
{}

/// What an opening keeps of the records tells all that a restart makes of them and each answer to an ask, so nothing else of
/// them is needed: the delivered list, the height, the place, the lock, the own messages of that height, and each height's
/// bundle. The decision of each height stands at the height's place, and the own messages are of the height after the last.
pub fn kept_law()
    ensures { KeptLaw }
{}

/// Any run of validators over stores that keep the store's rule, with stops anywhere between and within the calls of
/// `open`, `save` and `close`, is a run of the definitions, in which each opening is a restart: no journal is presumed.
pub fn stopped_law<S: Store>()
    ensures { StoppedLaw S.seen S.may_leave }
{}

/// The headline over such a run: whatever less than a third of the power does and wherever stops come, of two correct
/// validators' delivered lists, at any two moments, one begins the other, and each client's order and origin hold.
pub fn stopped_headline_law<S: Store>()
    ensures { StoppedHeadlineLaw S.seen S.may_leave }
{}

/// Each run of the definitions whose records have their fields in their ranges, its stops among it, leaves what some run over
/// stores leaves that do what they are asked: what the laws on stops ask of deeds and stores keeps no such run out.
pub fn served_law()
    ensures { ServedLaw }
{}
