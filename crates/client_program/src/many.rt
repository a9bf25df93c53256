//! Many transactions, to many validators at once.

ghost use Rattle.std.specs.Prelude.{◌≡◌, ◌≤◌, ◌||◌, nat_lt, IfOk};
ghost use Rattle.node_settings.specs.Failures.{answer_status};
ghost use Rattle.client_program.specs.Sending.{is_full, told_status};

use crate::connection::Connection;
use crate::sending::connect;
use messages::Reply;
use node_settings::{Answer, Failure};
use protocol::{Refusal, SubmitFault};
use std::io::Write;
use std::net::{Net, TcpStream};
use std::sync::{Mutex, Wait};
use std::thread;
use std::thread::{Scope, Threads};
use std::time::{Clock, Duration};

/// How many transactions are sent before their answers are waited for: as many as a validator queues for a client.
const MOST_SENT: usize = 64;

/// How long a client waits until it sends again what a full queue refused, in milliseconds.
const PAUSE_MS: u64 = 5;

/// The refusal of a transaction whose client has a full queue at the validator.
const QUEUE_FULL: Refusal = Refusal::Submit(SubmitFault::QueueFull);

/// Returns whether the validator's queue for the client is full.
fn is_full(reply: Reply) -> bool
    ensures { result ≡ is_full reply }
{
    reply.code == QUEUE_FULL.number() && reply.inner == QUEUE_FULL.inner()
}

/// What was told of the transactions, by all validators.
#[derive(Drop)]
struct Told<W: Drop> {
    out: W,
    is_refused: bool,
    failure: Option<Failure>,
}

impl<W: Write + Drop> Told<W> {
    /// Prints a validator's answer. A failed write is passed over.
    fn answer(&mut self, address: &str, number: u64, answer: Answer)
        ensures refused { self.new.is_refused ≡ (self.old.is_refused || nat_lt 0 (answer_status answer)) }
        ensures same { self.new.failure ≡ self.old.failure }
    {
        let _ = writeln!(self.out, "{address} {number} {answer}");
        let _ = self.out.flush();
        self.is_refused = self.is_refused || answer.status() > 0;
    }

    /// Prints that a validator did not answer.
    fn no_answer(&mut self, address: &str, number: u64) {
        let _ = writeln!(self.out, "{address} {number} unanswered");
        let _ = self.out.flush();
    }

    /// The exit status, once all is told.
    fn status(self) -> Result<u8, Failure>
        ensures told { result ≡ told_status self.failure self.is_refused }
        ensures few { IfOk result (λ status. status ≤ 1) }
    {
        match self.failure {
            Some(failure) => Err(failure),
            None if self.is_refused => Ok(1),
            None => Ok(0),
        }
    }
}

/// The frames of transactions, which are numbered from `first` on, and what was told of them.
#[derive(Drop)]
pub(crate) struct Delivery<'a, W: Drop> {
    first: u64,
    frames: &'a [Vec<u8>],
    told: Mutex<Told<W>>,
}

impl<'a, W: Write + Send + Drop> Delivery<'a, W> {
    /// Nothing was sent yet.
    pub(crate) fn new(first: u64, frames: &'a [Vec<u8>], out: W) -> Delivery<'a, W> {
        Delivery {
            first,
            frames,
            told: Mutex::new(Told {
                out,
                is_refused: false,
                failure: None,
            }),
        }
    }

    /// The number of a frame's transaction.
    fn number_of(&self, place: usize) -> u64 {
        self.first.saturating_add(place as u64)
    }

    /// Sends the frames to each of these validators, and prints a line for each answer. Each validator has a thread of its
    /// own, so one that is slow or gone keeps no other waiting.
    pub(crate) fn send<R: Threads + Wait + Clock + Net<Stream = TcpStream> + AllocGlobal + Sync>(
        self,
        rt: &R,
        addresses: &[&str],
    ) -> Result<u8, Failure>
        ensures { IfOk result (λ status. status ≤ 1) }
    {
        self.send_to_each(rt, addresses);
        self.told.into_inner().status()
    }

    /// Runs a thread for each validator.
    fn send_to_each<R: Threads + Wait + Clock + Net<Stream = TcpStream> + AllocGlobal + Sync>(
        &self,
        rt: &R,
        addresses: &[&str],
    ) {
        thread::scope(
            thread::scope_env(),
            rt,
            |scope| self.begin_each(rt, scope, addresses),
        );
    }

    fn begin_each<
        's,
        E,
        R: Threads + Wait + Clock + Net<Stream = TcpStream> + AllocGlobal + Sync + 's,
    >(&'s self, rt: &'s R, scope: &Scope<'s, E>, addresses: &'s [&'s str])
    where
        W: 's,
    {
        for address in addresses {
            self.begin(rt, scope, address);
        }
    }

    /// Connects to a validator, and starts its thread.
    fn begin<'s, E, R: Threads + Wait + Clock + Net<Stream = TcpStream> + AllocGlobal + Sync + 's>(
        &'s self,
        rt: &'s R,
        scope: &Scope<'s, E>,
        address: &'s str,
    )
    where
        W: 's,
    {
        let mut errand = Errand {
            delivery: self,
            address,
            answered: 0,
        };
        match connect(rt, address) {
            Ok(connection) => {
                if scope.spawn(move || errand.run(rt, connection)).is_err() {
                    self.lose(rt, address, 0, Failure::OutOfMemory);
                }
            }
            Err(failure) => self.lose(rt, address, 0, failure),
        }
    }

    /// Tells that what a validator has not answered has no answer.
    fn lose<R: Wait>(&self, rt: &R, address: &str, answered: usize, failure: Failure) {
        let mut told = self.told.lock(rt);
        told.failure = Some(failure);
        for place in answered..self.frames.len() {
            told.no_answer(address, self.number_of(place));
        }
    }
}

/// What is sent to one validator, and how much of it is answered.
#[derive(Drop)]
struct Errand<'d, 'a, 'n, W: Drop> {
    delivery: &'d Delivery<'a, W>,
    address: &'n str,
    answered: usize,
}

impl<W: Write + Send + Drop> Errand<'_, '_, '_, W> {
    /// Sends all frames, and tells the answers, or that there are none.
    fn run<R: Wait + Clock>(&mut self, rt: &R, mut connection: Connection<TcpStream>) {
        if let Err(failure) = self.send_all(rt, &mut connection) {
            self.delivery.lose(rt, self.address, self.answered, failure);
        }
    }

    /// Sends what is left, so many at a time, until all is answered.
    fn send_all<R: Wait + Clock>(
        &mut self,
        rt: &R,
        connection: &mut Connection<TcpStream>,
    ) -> Result<(), Failure> {
        for _ in rt.forever() {
            if self.answered >= self.delivery.frames.len() {
                break;
            }
            let count = self.send_some(connection)?;
            if !self.take_answers(rt, connection, count)? {
                thread::sleep(rt, Duration::from_millis(PAUSE_MS));
            }
        }
        Ok(())
    }

    /// Sends the next frames, and answers how many.
    fn send_some(&self, connection: &mut Connection<TcpStream>) -> Result<usize, Failure> {
        let mut count = 0usize;
        for frame in self
            .delivery
            .frames
            .iter()
            .skip(self.answered)
            .take(MOST_SENT)
        {
            connection.send(frame)?;
            count = count.saturating_add(1);
        }
        Ok(count)
    }

    /// Tells so many answers, up to the first transaction that a full queue refused: whether there was none. Those behind
    /// it are refused too, since their turn had not come.
    fn take_answers<R: Wait + Clock>(
        &mut self,
        rt: &R,
        connection: &mut Connection<TcpStream>,
        count: usize,
    ) -> Result<bool, Failure> {
        let mut was_full = false;
        for _ in 0..count {
            let reply = connection.reply(rt)?;
            was_full = was_full || is_full(reply);
            if !was_full {
                let number = self.delivery.number_of(self.answered);
                self.delivery
                    .told
                    .lock(rt)
                    .answer(self.address, number, Answer { reply });
                self.answered = self.answered.saturating_add(1);
            }
        }
        Ok(!was_full)
    }
}
