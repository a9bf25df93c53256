//! Whether all goes on once faults have ceased.

use crate::world::{Accepted, BOUND_MS, LATE_MS, World};
use cluster_actors::{Post, Seat};
use cluster_checks::{Event, Failure, TxName};

/// How often it is looked, in milliseconds.
const LOOK_MS: u64 = 10_000;

/// The height of a correct validator that runs; none of a Byzantine one.
fn height_of(post: &Post) -> Option<Result<u64, Failure>> {
    match &post.seat {
        _ if post.is_liar => None,
        Seat::Up(engine) => Some(Ok(engine.node.height())),
        Seat::Down(_) | Seat::Between => Some(Err(Failure::NotRunning {
            validator: post.number,
        })),
    }
}

/// Returns whether a correct validator has a lock and doesn't know that its value is valid, as after a restart. It proposes other
/// values then, for which it doesn't vote itself, so that a height may stay where all correct ones are needed.
fn is_bound(post: &Post) -> bool {
    match &post.seat {
        _ if post.is_liar => false,
        Seat::Up(engine) => {
            let state = engine.node.state();
            state.lock().is_some() && state.valid_value().is_none()
        }
        Seat::Down(_) | Seat::Between => false,
    }
}

impl World {
    /// Looks whether all correct validators run, none is behind, and all that was accepted is delivered; unless one of them is bound
    /// by a lock from before its restart, or a height goes on round by round.
    pub(crate) fn look(&mut self) -> Result<(), Failure> {
        let is_in_turn = self.is_in_turn();
        let is_held_up = is_in_turn || self.posts.iter().any(is_bound);
        if is_held_up {
            self.bound_at = self.now;
        }
        if self.now < self.settings.calm.saturating_add(BOUND_MS) {
            return self.look_again();
        }
        self.look_at_pace(is_held_up)?;
        if is_held_up {
            self.costs.bound = self.costs.bound.saturating_add(1);
        } else {
            self.look_at_heights()?;
            self.look_at_accepted()?;
        }
        self.look_again()
    }

    /// Has it looked at again in a while.
    fn look_again(&mut self) -> Result<(), Failure> {
        let at = self.now.saturating_add(LOOK_MS);
        self.agenda.add(at, Event::Look)?;
        Ok(())
    }

    /// How far the correct validators are: the highest height of one, and the highest round.
    pub(crate) fn place(&self) -> (u64, u32) {
        let mut place = (0, 0);
        for post in self.posts.iter() {
            if let (false, Seat::Up(engine)) = (post.is_liar, &post.seat) {
                place = (
                    engine.node.height().max(place.0),
                    engine.node.round().max(place.1),
                );
            }
        }
        place
    }

    /// Returns whether they go through the rounds of the height of the last look, and not every validator had its turn to propose:
    /// its value may be the only one that all can vote for.
    fn is_in_turn(&mut self) -> bool {
        let (height, round) = self.place();
        let (last_height, last_round) = self.last_place;
        if (height, round) != self.last_place {
            self.last_place = (height, round);
            self.moved_at = self.now;
        }
        let moves = self.now.saturating_sub(self.moved_at) < BOUND_MS;
        let turn = u32::try_from(self.parties.powers().total()).unwrap_or(u32::MAX);
        height == last_height && last_round > 0 && round < turn && moves
    }

    /// Each is where the highest was at the last look, or at most one below it.
    fn look_at_heights(&mut self) -> Result<(), Failure> {
        let mut highest = self.highest;
        for post in self.posts.iter() {
            let Some(height) = height_of(post) else {
                continue;
            };
            let height = height?;
            if height.saturating_add(1) < self.highest {
                return Err(Failure::HeightsApart {
                    validator: post.number,
                    height,
                    highest: self.highest,
                });
            }
            highest = highest.max(height);
        }
        self.highest = highest;
        Ok(())
    }

    /// The first correct validator in whose list a transaction isn't.
    fn lacking(&self, name: TxName) -> Option<u16> {
        let count = self.judge.count_with(name);
        let lacking = self.posts.iter().find(|post| {
            let items = post.progress.items;
            !post.is_liar && !self.judge.has_within(name.client, count, items)
        });
        lacking.map(|post| post.number)
    }

    /// An accepted transaction is in the list of each correct validator.
    fn look_at(&self, accepted: Accepted) -> Result<(), Failure> {
        let Accepted {
            at,
            by,
            life: _,
            name,
        } = accepted;
        match self.lacking(name) {
            Some(validator) => Err(Failure::NotDelivered {
                validator,
                client: name.client,
                session: name.session,
                number: name.number,
                by,
                waited: self.now.saturating_sub(at),
            }),
            None => Ok(()),
        }
    }

    /// Not more than half of what was accepted in calm is late; what is looked at while a height is held up isn't counted.
    fn look_at_pace(&mut self, is_held_up: bool) -> Result<(), Failure> {
        for _ in 0..self.fresh.len() {
            let Some(first) = self.fresh.front().copied() else {
                break;
            };
            if first.at.saturating_add(LATE_MS) > self.now {
                break;
            }
            if !is_held_up {
                let is_late = self.lacking(first.name).is_some();
                self.costs.pace.note(is_late);
            }
            self.fresh.pop_front();
        }
        if self.costs.pace.is_slow() {
            return Err(Failure::Slow {
                looked_at: self.costs.pace.looked_at,
                late: self.costs.pace.late,
                most: LATE_MS,
            });
        }
        Ok(())
    }

    /// Looks whether each accepted transaction that is due is delivered everywhere, unless who accepted it was stopped since: its client
    /// sends it again.
    fn look_at_accepted(&mut self) -> Result<(), Failure> {
        let calm = self.settings.calm.max(self.bound_at);
        for _ in 0..self.accepted.len() {
            let Some(first) = self.accepted.front().copied() else {
                break;
            };
            let due = first.at.max(calm).saturating_add(BOUND_MS);
            if due > self.now {
                break;
            }
            if self.lives(first.by, first.life) {
                self.look_at(first)?;
            }
            self.accepted.pop_front();
        }
        Ok(())
    }
}
