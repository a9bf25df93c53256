//! The words, who publishes them and who reads them.

ghost use Rattle.std.specs.Prelude.{◌≡◌, ◌≤◌, [], true, IfOk};
ghost use Rattle.status_words.specs.Seen.{unseen, opened, with_both, IsNoLess, IsOf};
ghost use Rattle.status_words.specs.Rule.{sitting};

use crate::steps::{
    Cells, Knower, blank, lay_beside, load_delivered, load_height, note, store_delivered,
    store_height, tell,
};
use std::alloc::{AllocError, Global};
use std::marker::{Brand, Model, PhantomData};

/// A node's height and how many items it has delivered.
#[derive(Clone, Copy, Debug, PartialEq, Eq)]
pub struct Status {
    /// From 0 to 2^48.
    pub height: u64,
    pub delivered: u64,
}

/// Names the words of one node, for proofs alone. Who opens the words picks it, and what the node
/// shares among its threads carries it.
pub trait Node {
    ghost use Rattle.atomic_table.specs.Seated.{TableId};

    ghost table: { TableId };
}

impl Node for Brand {
    ghost use Rattle.status_words.specs.Rule.{no_table};

    ghost table = { no_table };
}

/// New words, which have no name yet.
#[derive(Drop)]
pub struct Opened {
    cells: Cells,
    pass: Knower,
    blank: Knower,
    ghost count: { cells.shared.table_id.words ≡ 2 },
    ghost pass_is: { (pass.table_id ≡ cells.shared.table_id) × (pass.me.1 ≡ []) × (pass.me.0.publishes ≡ true) },
    ghost blank_is: { (blank.table_id ≡ cells.shared.table_id) × (blank.me.1 ≡ []) × (blank.me.0 ≡ sitting unseen) },
}

impl Opened {
    ghost use Rattle.status_words.specs.Ends.{opened_table, opened_words};

    /// Words at which this height and this number of delivered items stand: what the node was
    /// opened at.
    pub fn new(alloc: Global, status: Status) -> Result<Opened, AllocError>
        ensures { IfOk result (λ o. opened_words o ≡ opened status.height status.delivered) }
    {
        let words = [status.height, status.delivered];
        let (cells, mut pass) = Cells::of_words(alloc, &words, &status)?;
        let blank = blank(&cells, &mut pass);
        Ok(Opened { cells, pass, blank })
    }

    /// The words by a name that the caller picks: what all threads share, and what stands under
    /// the node's lock.
    pub fn named<J: Node>(self) -> (Words<J>, Publisher<J>)
        requires named { opened_table self ≡ J.table }
        ensures published { result.1 ≡ opened_words self }
    {
        let Opened { cells, pass, blank } = self;
        let words = Words {
            cells,
            of: PhantomData,
        };
        let publisher = Publisher {
            pass,
            blank,
            of: PhantomData,
        };
        (words, publisher)
    }
}

/// The two words, as all threads share them.
#[derive(Drop)]
pub struct Words<J: Node> {
    cells: Cells,
    of: PhantomData<J>,
    ghost table_is: { cells.shared.table_id ≡ J.table },
    ghost count: { J.table.words ≡ 2 },
}

/// What one thread reads the words with. It has no bytes.
#[derive(Drop)]
pub struct Seat<J: Node> {
    knower: Knower,
    of: PhantomData<J>,
}

impl<J: Node> Model for Seat<J> {
    ghost use Rattle.std.specs.Prelude.{◌≡◌, []};
    ghost use Rattle.status_words.specs.Seen.{Seen};
    ghost use Rattle.status_words.specs.Rule.{sitting};

    ghost Value = { Seen };

    ghost view = { λ s. s.knower.me.0.own };

    ghost invariant = { λ s. (s.knower.table_id ≡ J.table) × (s.knower.me ≡ (sitting s.knower.me.0.own, [])) };
}

/// What publishes a node's words. It has no bytes, and stands under the node's lock.
#[derive(Drop)]
pub struct Publisher<J: Node> {
    pass: Knower,
    blank: Knower,
    of: PhantomData<J>,
}

impl<J: Node> Model for Publisher<J> {
    ghost use Rattle.std.specs.Prelude.{◌≡◌, [], true};
    ghost use Rattle.status_words.specs.Seen.{Seen, unseen};
    ghost use Rattle.status_words.specs.Rule.{sitting};

    ghost Value = { Seen };

    ghost view = { λ s. s.pass.me.0.own };

    ghost invariant = { λ s. (s.pass.table_id ≡ J.table) × (s.pass.me.1 ≡ []) × (s.pass.me.0.publishes ≡ true) × (s.blank.table_id ≡ J.table) × (s.blank.me ≡ (sitting unseen, [])) };
}

impl<J: Node> Words<J> {
    /// The height and the number of delivered items, neither less than the seat had seen. It takes
    /// no memory and waits for nobody.
    pub fn status(&self, seat: &mut Seat<J>) -> Status
        ensures seen { seat.new ≡ with_both seat.old result.height result.delivered }
        ensures later { (seat.old.height ≤ result.height) × (seat.old.delivered ≤ result.delivered) }
    {
        let height = load_height(&self.cells, &mut seat.knower);
        let delivered = load_delivered(&self.cells, &mut seat.knower);
        Status { height, delivered }
    }
}

impl<J: Node> Publisher<J> {
    /// A seat that has seen 0 and 0. It takes no memory.
    pub fn seat(&mut self, words: &Words<J>) -> Seat<J>
        ensures same { self.new ≡ self.old }
        ensures unseen { result ≡ unseen }
    {
        let knower = note(&words.cells, &mut self.blank);
        Seat {
            knower,
            of: PhantomData,
        }
    }

    /// Publishes a status, which the seat has then seen, and which is in neither part less than what
    /// it had seen. Whatever the seat was told before had been published or stood at the opening. It
    /// takes no memory and waits for nobody.
    pub fn publish(&mut self, words: &Words<J>, seat: &mut Seat<J>, status: Status)
        requires later { (self.old.height ≤ status.height) × (self.old.delivered ≤ status.delivered) }
        ensures published { self.new ≡ with_both self.old status.height status.delivered }
        ensures seen { seat.new ≡ with_both seat.old status.height status.delivered }
        ensures later { (seat.old.height ≤ status.height) × (seat.old.delivered ≤ status.delivered) }
        ensures of_these { IsOf self.new seat.new }
    {
        let cells = &words.cells;
        store_height(cells, &mut self.pass, status.height);
        store_delivered(cells, &mut self.pass, status.delivered);
        let told = note(cells, &mut self.pass);
        tell(cells, &mut seat.knower, told);
        load_height(cells, &mut seat.knower);
        load_delivered(cells, &mut seat.knower);
        lay_beside(cells, &mut self.pass, &mut seat.knower);
    }
}
