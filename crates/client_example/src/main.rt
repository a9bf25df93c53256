//! A client, to be copied: it sends a text to a validator as a transaction of one of its sessions, and waits until that
//! stands in the list.
#![tactic(auto)]

use anyhow::{Context, Result, bail};
use authenticators::{KeyRing, Party};
use list_client::{Connection, Sender, frame_of, item_of};
use std::net::TcpStream;
use std::rt::{Env, Files};
use std::{env, fs};
use transactions::{Data, Op};

const USAGE: &str =
    "usage: client_example KEYS CLIENT[.SESSION] VALIDATORS ADDRESS NUMBER TEXT, with a validator's list as input";

fn main(rt: HostRuntime) -> Result<()> {
    let words = words_of(&rt)?;
    let [_, keys, sender, validators, address, number, text] = words.as_slice() else {
        bail!("{USAGE}");
    };
    let sender = Sender::named(sender.as_str()).context("the client")?;
    let number = number.as_str().parse().context("the number")?;
    let validators = validators.as_str().parse().context("the validators")?;
    let keys = keys_of(&rt, keys.as_str(), sender.client, validators).context("the keys")?;

    let op = Op::Bytes(Data::from_slice(rt.alloc(), text.as_bytes())?);
    let frame = frame_of(rt.alloc(), &keys, sender, number, op).context("the transaction")?;
    let stream = TcpStream::connect(&rt, address.as_str()).context("the validator")?;
    let reply = Connection::new(rt.alloc(), stream).ask(&frame)?;
    match reply.code {
        0 => println!(rt; "accepted")?,
        code => bail!("refused {code} {}", reply.inner),
    }
    wait_for(&rt, sender, number)
}

/// The words of the command line.
fn words_of(rt: &(impl Env + AllocGlobal)) -> Result<Vec<String>> {
    let mut words = Vec::new(rt.alloc());
    for word in env::args(rt)? {
        words.push(word)?;
    }
    Ok(words)
}

/// The keys of a client among so many validators, from its key file.
fn keys_of(
    rt: &(impl Files + AllocGlobal),
    file: &str,
    client: u16,
    validators: u16,
) -> Result<KeyRing> {
    let text = fs::read(rt, file)?;
    let ring = KeyRing::read(rt.alloc(), &text, Party::Client(client), validators)?;
    Ok(ring)
}

/// Prints the line of the list, which comes as input, that has this transaction of the sender.
fn wait_for(rt: &(impl Input + Print + AllocGlobal), sender: Sender, number: u64) -> Result<()> {
    for line in rt.lines(rt.alloc()) {
        let line = line?;
        if item_of(&line) == Some((sender, number)) {
            println!(rt; "{line}")?;
            return Ok(());
        }
    }
    bail!("the list has ended without it")
}
