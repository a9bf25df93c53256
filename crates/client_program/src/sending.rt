//! Sending transactions.

ghost use Rattle.std.specs.Prelude.{◌≡◌, ◌≤◌, IfOk};
ghost use Rattle.node_settings.specs.Failures.{answer_status};

use crate::connection::{Connection, PATIENCE_SECONDS};
use crate::framing::Sender;
use crate::many::Delivery;
use authenticators::Party;
use key_files::{memory_or, read_ring};
use node_settings::{Answer, Failure, SendSettings, Sending};
use std::io::{ErrorKind, Write};
use std::net::{Net, TcpStream, ToSocketAddrs};
use std::rt::Files;
use std::sync::Wait;
use std::thread::Threads;
use std::time::{Clock, Duration};
use std::{fs, io};

/// How long a client waits for a connection to each socket address, in seconds.
const CONNECTING_SECONDS: u64 = 5;

/// Connects to the validator at this address.
pub(crate) fn connect<R: Net<Stream = TcpStream> + AllocGlobal>(
    rt: &R,
    address: &str,
) -> Result<Connection<TcpStream>, Failure> {
    match reach(rt, address) {
        Ok(stream) => Ok(Connection::new(rt.alloc(), stream)),
        Err(error) => Err(memory_or(&error, Failure::CannotConnect)),
    }
}

/// Connects to the first of an address's socket addresses that can be reached.
fn reach<R: Net<Stream = TcpStream>>(rt: &R, address: &str) -> io::Result<TcpStream> {
    let connecting = Duration::from_secs(CONNECTING_SECONDS);
    let mut reached = Err(ErrorKind::AddrNotAvailable.into());
    for socket in address.to_socket_addrs(rt)? {
        reached = TcpStream::connect_timeout(rt, &socket, connecting);
        if reached.is_ok() {
            break;
        }
    }
    let stream = reached?;
    let patience = Duration::from_secs(PATIENCE_SECONDS);
    stream.set_read_timeout(Some(patience))?;
    stream.set_write_timeout(Some(patience))?;
    Ok(stream)
}

/// Sends the frame to the validator at this address, and answers what it says of it.
fn ask_validator<R: Clock + Net<Stream = TcpStream> + AllocGlobal>(
    rt: &R,
    address: &str,
    frame: &[u8],
) -> Result<Answer, Failure> {
    let mut connection = connect(rt, address)?;
    connection.send(frame)?;
    let reply = connection.reply(rt)?;
    Ok(Answer { reply })
}

/// Prints an answer. A failed write is passed over.
fn print_answer<W: Write>(out: &mut W, answer: Answer) -> u8
    ensures status { result ≡ answer_status answer }
    ensures few { result ≤ 1 }
{
    let _ = writeln!(out, "{answer}");
    let _ = out.flush();
    answer.status()
}

/// Sends transactions, and prints what validators say of them. Answers the exit status: 0 where all were accepted, else 1.
///
/// Of one transaction to one validator the answer is printed alone. Else there is a line `ADDRESS NUMBER ANSWER` for each of them
/// and each validator, in order of the numbers for each validator; `ANSWER` is `unanswered` where the connection fails
/// before, and then the failure is `CannotConnect` after all is done. Of a file all lines are looked at first, and with one that
/// is no transaction (`Line`) nothing is sent.
pub fn send<
    R: Threads + Wait + Clock + Files + Net<Stream = TcpStream> + AllocGlobal + Sync,
    W: Write + Send + Drop,
>(rt: &R, settings: SendSettings<'_>, mut out: W) -> Result<u8, Failure>
    ensures { IfOk result (λ status. status ≤ 1) }
{
    let SendSettings {
        client,
        validators,
        keys,
        to,
        number,
        session,
        sending,
    } = settings;
    let ring = read_ring(rt, keys, Party::Client(client), validators)?;
    let sender = Sender {
        client,
        session,
        ring: &ring,
    };
    match sending {
        Sending::One(op) => {
            let frame = sender.frame_of(rt.alloc(), number, op)?;
            match to.as_slice() {
                [address] => Ok(print_answer(&mut out, ask_validator(rt, address, &frame)?)),
                _ => Delivery::new(number, &[frame], out).send(rt, to.as_slice()),
            }
        }
        Sending::Lines(file) => {
            let text = text_of(rt, file)?;
            let frames = sender.frames_of(rt.alloc(), number, &text)?;
            Delivery::new(number, frames.as_slice(), out).send(rt, to.as_slice())
        }
    }
}

/// The text of the file of transactions.
fn text_of<R: Files + AllocGlobal>(rt: &R, file: &str) -> Result<String, Failure> {
    match fs::read_to_string(rt, file) {
        Ok(text) => Ok(text),
        Err(error) => Err(memory_or(&error, Failure::Line(0))),
    }
}
