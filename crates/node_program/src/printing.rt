//! The delivered list on standard output.

ghost use Rattle.std.specs.Prelude.{◌≡◌, ◌≤◌, ◌+◌};

use crate::progress::Progress;
use locked_node::{LockedNode, Subscription};
use log::{Log, warn};
use peer_links::Clock;
use peer_threads::Bell;
use printed_lines::ItemLine;
use status_words::{Node, Seat};
use std::alloc::{AllocError, Global};
use std::io::{BufWriter, Write};
use std::sync::Wait;
use std::{io, time};
use subscriber_ring::Delivered;
use tcp_links::HostClock;
use vote_journal::Store;

/// How long it waits for the bell at most, in milliseconds: what no memory was there for is printed then.
const TURN_MS: u64 = 1_000;

/// The most bytes that leave by one write: as many as a pipe holds.
const BLOCK_BYTES: usize = 64 * 1_024;

/// The most bytes of a line: a place, a client with its session, a number, and 1,024 bytes in two digits each.
const LINE_BYTES: usize = 2_112;

/// Which positions of the delivered list are taken, and which of these are printed.
#[derive(Clone, Copy)]
pub(crate) struct Span {
    /// The first position that is taken.
    pub(crate) taken: u64,
    /// The first position that is printed.
    pub(crate) first: u64,
    /// The position behind the last one.
    pub(crate) end: u64,
}

/// What was printed. Lines that are there together leave by one write, in blocks of whole ones.
#[derive(Drop)]
pub(crate) struct Printout<W: Write + Drop> {
    out: BufWriter<W>,
    span: Span,
    /// The position of the first line that was left out since it was last asked whether any was.
    left_out: Option<u64>,
    /// Whether it was logged that lines are left out since a block was last written.
    is_told: bool,
}

impl<W: Write + Drop> Printout<W> {
    /// Nothing is taken yet. It is refused for want of memory alone.
    pub(crate) fn new(alloc: Global, out: W, span: Span) -> io::Result<Printout<W>> {
        Ok(Printout {
            out: BufWriter::with_capacity(alloc, BLOCK_BYTES, out)?,
            span,
            left_out: None,
            is_told: false,
        })
    }

    /// Whether all is printed that is to be.
    fn is_done(&self) -> bool {
        self.span.taken >= self.span.end
    }

    /// Returns whether the block has room for a line.
    fn has_room(&self) -> bool {
        self.out.buffer().len() <= BLOCK_BYTES - LINE_BYTES
    }

    /// Takes the next item, and prints it if it is wanted.
    fn take(&mut self, delivered: &Delivered) {
        if delivered.position >= self.span.first {
            self.print(delivered);
        }
        self.span.taken = self.span.taken.saturating_add(1);
    }

    /// Puts an item's line into the block, which leaves first if it is full. Where that fails, the line is left out.
    fn print(&mut self, delivered: &Delivered) {
        if !self.has_room() {
            self.write_block();
        }
        if self.has_room() {
            let line = ItemLine::of_item(delivered.position, &delivered.item);
            let _ = writeln!(self.out, "{line}");
        } else {
            self.left_out = self.left_out.or(Some(delivered.position));
        }
    }

    /// Writes the block. A failed write is passed over: what is left of the block stays for the next one.
    fn write_block(&mut self) {
        if self.out.flush().is_ok() {
            self.is_told = false;
        }
    }

    /// Logs that lines are left out, once until a block can be written again.
    fn tell<R: Log>(&mut self, rt: &R) {
        let Some(position) = self.left_out.take() else {
            return;
        };
        if !self.is_told {
            warn!(rt; "the list cannot be written, so it lacks lines from position {position} on");
            self.is_told = true;
        }
    }

    /// Logs that the end of the list is lost, where it couldn't be written.
    fn tell_last<R: Log>(&self, rt: &R) {
        if !self.out.buffer().is_empty() {
            warn!(rt; "the list cannot be written, so it lacks its last lines");
        }
    }

    /// Prints what waits in the ring. With the last of it the block leaves, so that a line which comes alone leaves at once.
    fn print_waiting<R: Wait>(&mut self, rt: &R, subscription: &mut Subscription) {
        for _ in rt.forever() {
            if self.is_done() {
                break;
            }
            let Some(delivered) = subscription.try_take(rt) else {
                break;
            };
            self.take(&delivered);
        }
        self.write_block();
    }
}

/// Has the ring filled where items are delivered that were not taken: whether there are more.
fn refill<S: Store + Drop, J: Node, W: Write + Drop, R: Wait>(
    rt: &R,
    node: &LockedNode<S, J>,
    seat: &mut Seat<J>,
    subscription: &Subscription,
    printout: &Printout<W>,
) -> Result<bool, AllocError> {
    if printout.is_done() || node.status(seat).delivered <= printout.span.taken {
        return Ok(false);
    }
    Ok(node.fill(rt, subscription)? > 0)
}

/// Prints all that is delivered by now.
fn print_delivered<S: Store + Drop, J: Node, W: Write + Drop, R: Wait>(
    rt: &R,
    node: &LockedNode<S, J>,
    seat: &mut Seat<J>,
    subscription: &mut Subscription,
    printout: &mut Printout<W>,
) -> Result<(), AllocError> {
    for _ in rt.forever() {
        printout.print_waiting(rt, subscription);
        if !refill(rt, node, seat, subscription, printout)? {
            break;
        }
    }
    Ok(())
}

/// Prints what is delivered, from the first wanted position on, as soon as the bell tells of it, until the bell tells that the
/// node's threads have ended, or all is printed that is to be. What can't be had for want of memory is tried again until the
/// end. Now and then it logs how far the node is.
pub(crate) fn print_until_end<
    S: Store + Drop,
    J: Node,
    W: Write + Drop,
    R: Wait + time::Clock + Log,
>(
    rt: &R,
    node: &LockedNode<S, J>,
    mut subscription: Subscription,
    bell: &Bell,
    clock: &HostClock,
    mut printout: Printout<W>,
) -> Result<(), AllocError> {
    let mut seat = node.seat(rt);
    let mut progress = Progress::new(clock.now_ms(rt), node.status(&mut seat).delivered);
    for _ in rt.forever() {
        let is_last = bell.is_over(rt);
        let told = print_delivered(rt, node, &mut seat, &mut subscription, &mut printout);
        printout.tell(rt);
        if is_last || printout.is_done() {
            printout.tell_last(rt);
            return told;
        }
        bell.wait(rt, TURN_MS);
        progress.note(rt, clock.now_ms(rt), node.status(&mut seat));
    }
    unreachable!()
}
