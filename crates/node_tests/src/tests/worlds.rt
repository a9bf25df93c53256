//! What no line of a schedule does to a world of four validators.

use super::assert_same;
use powers::Powers;
use std::alloc::Global;
use std::process::Abort;
use std::slice;
use transactions::{Data, Op};
use world_schedule::{Event, Failing, FaultNumber, Report, Told, What, World};

/// Four validators, of whom these lie, and eight clients.
fn world(rt: &impl Abort, alloc: Global, liars: &[u16]) -> World {
    let each = vec![in alloc; 1, 1, 1, 1].expect(rt, "four numbers have room");
    let powers = Powers::new(each).expect(rt, "they are powers");
    World::new(alloc, powers, 8, liars).expect(rt, "the world has room")
}

/// A run that no event ends. It has no contract, as a test of values has no use for one, which would go along each way out
/// of the test.
fn run(rt: &impl Abort, world: &mut World, events: &[Event]) -> Report {
    let Ok(report) = world.run(events) else {
        panic!(rt; "no event ends the run");
    };
    report
}

/// The event and the number of the fault by which a run of these events ends, and how many messages are told before it.
fn fault_of(world: &mut World, events: &[Event]) -> Option<(u64, FaultNumber, usize)> {
    match world.run(events) {
        Ok(_) => None,
        Err(fault) => Some((fault.event, fault.number, messages(fault.told.as_slice()))),
    }
}

/// How many messages are told.
fn messages(told: &[Told]) -> usize {
    told.iter().filter(|one| is_message(one)).count()
}

fn is_message(told: &Told) -> bool {
    matches!(&told.what, What::Released(_))
}

/// A liar is asked for nothing, and has no store.
#[test]
fn events_of_a_liar(rt: HostRuntime) {
    let mut world = world(&rt, rt.alloc(), &[0]);
    refuses_events_of_a_liar(&rt, &mut world);
}

fn refuses_events_of_a_liar(rt: &impl Abort, world: &mut World) {
    let failing = Failing { call: 1, keep: 0 };
    let nobody = Some((1, FaultNumber::NoSuchParty, 0));
    for event in &[Event::Ask(0), Event::Resend(0), Event::Fail(0, failing)] {
        assert_same(rt, &fault_of(world, slice::from_ref(event)), &nobody);
    }
}

/// An item of more than 1,024 bytes has no spelling. The events before it stand: their messages come in a further run.
#[test]
fn runs_after_a_fault(rt: HostRuntime) {
    let mut world = world(&rt, rt.alloc(), &[]);
    refuses_a_long_item(&rt, rt.alloc(), &mut world);
    delivers_after_a_fault(&rt, rt.alloc(), &mut world);
}

fn refuses_a_long_item(rt: &impl Abort, alloc: Global, world: &mut World) {
    let zeros = vec![in alloc; 0; 1025].expect(rt, "the bytes have room");
    let long = Op::Bytes(Data::from_vec(zeros));
    let too_long = Some((2, FaultNumber::TooLong, 3));
    let events = [Event::Ask(1), Event::Send(7, long)];
    assert_same(rt, &fault_of(world, &events), &too_long);
}

fn delivers_after_a_fault(rt: &impl Abort, alloc: Global, world: &mut World) {
    let numbers = answered(rt, alloc, world, &[Event::Deliver(2, 0)]);
    assert_same(rt, &numbers.as_slice(), &[7].as_slice());
}

/// The numbers of the answers that a run of these events tells.
fn answered(rt: &impl Abort, alloc: Global, world: &mut World, events: &[Event]) -> Vec<u8> {
    let report = run(rt, world, events);
    let mut numbers = Vec::new(alloc);
    for one in report.told.as_slice() {
        if let What::Answered(answer) = &one.what {
            numbers
                .push(answer.number)
                .expect(rt, "the number has room");
        }
    }
    numbers
}

/// A validator that lies has no variables, and neither has a number that is no validator's.
#[test]
fn states_of_others(rt: HostRuntime) {
    let world = world(&rt, rt.alloc(), &[0, 1, 2]);
    assert_states_of_others(&rt, &world);
}

fn assert_states_of_others(rt: &impl Abort, world: &World) {
    assert!(rt; is_up(world, 3) && !is_up(world, 0) && !is_up(world, 4));
}

/// Whether this validator is a correct one that is open.
fn is_up(world: &World, validator: u64) -> bool {
    world.state(validator).is_some()
}
