//! What asks may cost.

ghost use Rattle.std.specs.Prelude.{◌≡◌, ◌≢◌, ℕ};
ghost use Rattle.std.specs.List.{slice_get};
ghost use Rattle.peer_core.specs.Efforts.{share, cost, has_room, charged, tagged, later, carried, with_debt};

use powers::MOST_VALIDATORS;

/// How many bytes are hashed and sent each millisecond at most on as many links as there are validators, which less than a third of them may have:
/// half of what one processor hashes, since nothing else is done by the node meanwhile.
const MOST_EFFORT: u64 = 128_000;

/// How far ahead a link's peer may spend, in milliseconds. It may begin to ask with one bundle, whatever that costs.
const MOST_AHEAD_MS: u64 = 10_000;

/// What the asks that came on a link have cost.
#[derive(Clone, Copy, Debug)]
pub(crate) struct Account {
    /// From when on its share is its own again, in milliseconds.
    free: u64,
}

impl Account {
    pub(crate) const NEW: Account = Account { free: 0 };

    /// Returns whether no more was spent than the share of its next ten seconds.
    pub(crate) fn has_room(&self, now: u64) -> bool
        ensures { result ≡ has_room self.now now }
    {
        self.free <= now.saturating_add(MOST_AHEAD_MS)
    }

    /// Charges so many milliseconds of its share.
    pub(crate) fn charge(&mut self, milliseconds: u64, now: u64)
        ensures { self.new ≡ charged self.old milliseconds now }
    {
        self.free = self.free.max(now).saturating_add(milliseconds);
    }

    /// Returns the one of both on which more was spent.
    pub(crate) fn later(self, other: Account) -> Account
        ensures { result ≡ later self other }
    {
        Account {
            free: self.free.max(other.free),
        }
    }
}

/// Returns how many bytes the asks on one link may cost each millisecond, among so many validators.
fn share_of(count: u16) -> u64
    ensures { result ≡ share count }
{
    (MOST_EFFORT / u64::from(count.max(1))).max(1)
}

/// Returns how many milliseconds of a link's share so many bytes are, at least one.
fn cost_of(bytes: u64, count: u16) -> u64
    ensures { result ≡ cost bytes count }
{
    (bytes / share_of(count)).saturating_add(1)
}

/// Returns what a bundle of this size costs that is sent to one of so many validators.
pub(crate) fn cost_of_sending(size: usize, count: u16) -> u64
    ensures { result ≡ cost size count }
{
    cost_of(size as u64, count)
}

/// Returns what a bundle of this size costs that is made: it is tagged for each of so many validators.
pub(crate) fn cost_of_making(size: usize, count: u16) -> u64
    ensures { result ≡ cost (tagged size count) count }
{
    let bytes = (size as u64).saturating_mul(u64::from(count));
    cost_of(bytes, count)
}

/// What was spent on links of one way that have ended, for each validator that was behind one: its next link begins with that, so that nobody begins
/// anew by connecting again.
#[derive(Debug, Drop)]
pub(crate) struct Debts {
    accounts: [Account; MOST_VALIDATORS],
}

impl Debts {
    /// Nothing was spent.
    pub(crate) fn new() -> Debts {
        Debts {
            accounts: [Account::NEW; MOST_VALIDATORS],
        }
    }

    /// Returns what a validator's next link begins with.
    pub(crate) fn of(&self, validator: u16) -> Account
        ensures { result ≡ carried (slice_get self.now.accounts validator) }
    {
        match self.accounts.get(usize::from(validator)) {
            Some(account) => *account,
            None => Account::NEW,
        }
    }

    /// Notes what was spent on a validator's link that has ended.
    pub(crate) fn note(&mut self, validator: u16, account: Account)
        ensures noted { slice_get self.new.accounts validator ≡ with_debt account (slice_get self.old.accounts validator) }
        ensures others { (other : ℕ) → other ≢ validator → slice_get self.new.accounts other ≡ slice_get self.old.accounts other }
    {
        let place = usize::from(validator);
        if place < self.accounts.len() {
            self.accounts[place] = self.accounts[place].later(account);
        }
    }
}
