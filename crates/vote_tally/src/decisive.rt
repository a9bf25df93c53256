//! The rounds in which a quorum precommitted one id.

ghost use Rattle.std.specs.Prelude.{◌≡◌, ◌<◌, vec_len, vec_capacity};
ghost use Rattle.vote_tally.specs.Totals.{is_decided, rounds_with};

use crate::totals::{Topic, Totals, total_at};
use messages::{Step, Vote};
use powers::Powers;

/// Notes the round of a vote where its id has a quorum of precommits, once.
pub fn note(rounds: &mut Vec<u32>, totals: &Totals, powers: &Powers, vote: &Vote)
    requires room { vec_len rounds.old < vec_capacity rounds.old }
    ensures { rounds.new.items ≡ rounds_with (is_decided powers.now totals.now vote.now.step vote.now.round vote.now.content) vote.now.round rounds.old.items }
{
    if is_decided(totals, powers, vote) && !rounds.contains(&vote.round) {
        rounds.push_reserved(vote.round);
    }
}

/// The vote is a precommit for an id that has a quorum of precommits in its round.
fn is_decided(totals: &Totals, powers: &Powers, vote: &Vote) -> bool
    ensures { result ≡ is_decided powers.now totals.now vote.now.step vote.now.round vote.now.content }
{
    match (vote.step, vote.content) {
        (Step::Precommit, Some(id)) => {
            let topic = Topic::PrecommitsFor(vote.round, Some(id));
            powers.is_quorum(total_at(totals, topic).power)
        }
        _ => false,
    }
}
