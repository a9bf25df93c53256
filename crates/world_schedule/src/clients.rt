//! What the clients of a world sent.

ghost use Rattle.std.specs.Prelude.{◌≡◌, ◌⊎◌, ◌<◌, ◌≤◌, ◌^◌, true, false, set, slice_get, Some, IfOk, IfErr, OnOk};
ghost use Rattle.protocol.specs.Values.{fresh, is_close, session_wanted, number_wanted};
ghost use Rattle.protocol.specs.declared.standing.Standing.{Standing as Reached};
ghost use Rattle.world_schedule.specs.Reports.{begun_after};
ghost use Rattle.world_schedule.specs.Worlds.{HaveSent};

use protocol::Standing;
use std::alloc::{AllocError, Global};
use transactions::Op;
use world_parties::FaultNumber;

/// Where the clients stand after what they sent, by their numbers. One that began a session stands where it does after nothing
/// of that session.
#[derive(Drop)]
pub(crate) struct Clients {
    pub(crate) each: Vec<Standing>,
}

impl Clients {
    /// So many clients, of which none sent anything.
    pub(crate) fn new(alloc: Global, count: u16) -> Result<Clients, AllocError>
        ensures { IfOk result (λ clients. HaveSent count (λ client. fresh) clients.each.items) }
    {
        let mut each = Vec::with_capacity(alloc, usize::from(count))?;
        for _client in 0..count {
            each.push(Standing::FRESH)?;
        }
        Ok(Clients { each })
    }

    /// The session and the number of a client's next transaction.
    ///
    /// `ClientClosed` (3) after its close.
    pub(crate) fn next(&self, client: u16) -> Result<(u32, u64), FaultNumber>
        ensures ok { (reached : Reached) → slice_get self.now.each.items client ≡ Some reached → IfOk result (λ next. (next.0 ≡ session_wanted reached) × (next.1 ≡ number_wanted reached) × (reached.closed ≡ false)) }
        ensures err { (reached : Reached) → slice_get self.now.each.items client ≡ Some reached
            → IfErr result (λ fault. ((fault ≡ FaultNumber.ClientClosed) × (reached.closed ≡ true)) ⊎ (fault ≡ FaultNumber.OutOfMemory)) }
    {
        let place = usize::from(client);
        if place >= self.each.len() {
            return Err(FaultNumber::OutOfMemory);
        }
        let Standing {
            session,
            last,
            closed,
        } = self.each[place];
        if closed {
            return Err(FaultNumber::ClientClosed);
        }
        match last.checked_add(1) {
            Some(number) => Ok((session, number)),
            None => Err(FaultNumber::OutOfMemory),
        }
    }

    /// Notes that a client sent this transaction.
    pub(crate) fn note(&mut self, client: u16, session: u32, number: u64, op: &Op)
        ensures { self.new.each.items ≡ set self.old.each.items client (record { session = session; last = number; closed = is_close op.now }) }
    {
        let place = usize::from(client);
        if place < self.each.len() {
            self.each[place] = Standing {
                session,
                last: number,
                closed: matches!(op, Op::Close),
            };
        }
    }

    /// A closed client begins its next session.
    ///
    /// `NotClosed` (6) where it has not sent its close; `TooLong` (4) behind the last session that there is.
    pub(crate) fn begin(&mut self, client: u16) -> Result<(), FaultNumber>
        ensures ok { (reached : Reached) → slice_get self.old.each.items client ≡ Some reached → OnOk result ((reached.closed ≡ true) × ((begun_after reached).session < 2 ^ 32) × (self.new.each.items ≡ set self.old.each.items client (begun_after reached))) }
        ensures err { IfErr result (λ fault. self.new ≡ self.old) }
        ensures cause { (reached : Reached) → slice_get self.old.each.items client ≡ Some reached
            → IfErr result (λ fault. ((fault ≡ FaultNumber.NotClosed) × (reached.closed ≡ false)) ⊎ (((fault ≡ FaultNumber.TooLong) × (reached.closed ≡ true) × (2 ^ 32 ≤ (begun_after reached).session)) ⊎ (fault ≡ FaultNumber.OutOfMemory))) }
    {
        let place = usize::from(client);
        if place >= self.each.len() {
            return Err(FaultNumber::OutOfMemory);
        }
        let Standing {
            session,
            closed,
            ..
        } = self.each[place];
        if !closed {
            return Err(FaultNumber::NotClosed);
        }
        let Some(session) = session.checked_add(1) else {
            return Err(FaultNumber::TooLong);
        };
        self.each[place] = Standing {
            session,
            last: 0,
            closed: false,
        };
        Ok(())
    }
}
