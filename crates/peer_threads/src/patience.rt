//! How long a thread that sends waits for its peer.

ghost use Rattle.std.specs.Prelude.{◌≡◌, None};
ghost use Rattle.peer_threads.specs.Patience.{gives_up, is_to_look, noted};

/// How long a peer may take nothing at all, in milliseconds.
const STUCK_MS: u64 = 30_000;

/// The same where the link is closed, or all ends.
const CLOSED_STUCK_MS: u64 = 2_000;

/// How long what waits on a link is still sent once it is closed, or all ends, in milliseconds.
const CLOSED_MS: u64 = 10_000;

/// How long it is between two looks at how the link stands, in milliseconds.
const LOOK_MS: u64 = 250;

/// How a link stands.
#[derive(Clone, Copy, Debug, PartialEq, Eq)]
pub(crate) enum Standing {
    Open,
    /// It is closed, or all ends.
    Closed,
    /// It is closed, and so many links have threads that its place is wanted.
    Crowded,
}

/// When a peer took something last, and since when its link is closed.
#[derive(Clone, Copy, Debug)]
pub(crate) struct Patience {
    taken: u64,
    looked: u64,
    closed: Option<u64>,
}

impl Patience {
    /// The link was opened now.
    pub(crate) fn new(now: u64) -> Patience
        ensures { result ≡ record { taken = now; looked = now; closed = None } }
    {
        Patience {
            taken: now,
            looked: now,
            closed: None,
        }
    }

    /// Notes that the peer took something, or that something is there for it to take.
    pub(crate) fn took(&mut self, now: u64)
        ensures { self.new ≡ record self.old { taken = now } }
    {
        self.taken = now;
    }

    /// Returns whether it is time to look how the link stands.
    pub(crate) fn is_to_look(&self, now: u64) -> bool
        ensures { result ≡ is_to_look self.now now }
    {
        now.saturating_sub(self.looked) >= LOOK_MS
    }

    /// Notes how the link stands now, and returns whether the peer is given up.
    pub(crate) fn gives_up(&mut self, standing: Standing, now: u64) -> bool
        ensures answer { result ≡ gives_up standing self.old now }
        ensures noted { self.new ≡ noted standing self.old now }
    {
        self.looked = now;
        let stuck = now.saturating_sub(self.taken);
        match standing {
            Standing::Open => stuck >= STUCK_MS,
            Standing::Closed => {
                let since = self.closed.unwrap_or(now);
                self.closed = Some(since);
                stuck >= CLOSED_STUCK_MS || now.saturating_sub(since) >= CLOSED_MS
            }
            Standing::Crowded => true,
        }
    }
}
