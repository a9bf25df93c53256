//! What no contract says: that frames offered to a queue come out of it, and that who waits is woken.

use super::assert_same;
use bytes::Bytes;
use link_queue::{Anything, Cause, LinkQueue, MOST_BYTES, MOST_FRAMES, Untaken};
use std::alloc::{AllocError, Global};
use std::process::Abort;
use std::sync::{Arc, Mutex, Wait};
use std::thread;
use std::thread::Threads;
use std::time::{Clock, Duration};

type Queue = LinkQueue<Anything>;

/// What came of an offer: how many frames then waited, or why it was dropped.
#[derive(Clone, Copy, Debug, PartialEq, Eq)]
enum Answer {
    Queued(usize),
    Dropped(Cause),
    OutOfMemory,
}

/// What came of a take: the number in the frame, none within the time, or the queue's end.
#[derive(Clone, Copy, Debug, PartialEq, Eq)]
enum Found {
    Number(u32),
    NotYet,
    End,
}

/// A frame of four bytes.
fn frame_of(alloc: Global, number: u32) -> Result<Bytes, AllocError> {
    Bytes::copy_from_slice(alloc, &number.to_be_bytes())
}

/// The number in a frame.
fn number_of(frame: &Bytes) -> u32 {
    match frame.as_slice() {
        [a, b, c, d] => u32::from_be_bytes([*a, *b, *c, *d]),
        _ => u32::MAX,
    }
}

/// An empty queue.
fn queue_of<R: Abort>(rt: &R, alloc: Global) -> Queue {
    Queue::new(alloc).expect(rt, "no memory")
}

/// Offers the frame of a number, and tells what came of it.
fn offer<R: Wait>(rt: &R, alloc: Global, queue: &Queue, number: u32) -> Answer {
    let Ok(frame) = frame_of(alloc, number) else {
        return Answer::OutOfMemory;
    };
    match queue.offer(rt, frame) {
        Ok(queued) => Answer::Queued(queued.waiting()),
        Err(dropped) => Answer::Dropped(dropped.cause()),
    }
}

/// What came of a take.
fn found_of(taken: Result<Bytes, Untaken>) -> Found {
    match taken {
        Ok(frame) => Found::Number(number_of(&frame)),
        Err(untaken) if untaken.has_ended() => Found::End,
        Err(_) => Found::NotYet,
    }
}

/// A take that waits until a frame or the end comes.
fn take<R: Wait>(rt: &R, queue: &Queue) -> Found {
    found_of(queue.take(rt))
}

/// A take that waits for a millisecond at most.
fn take_soon<R: Wait + Clock>(rt: &R, queue: &Queue) -> Found {
    found_of(queue.take_within(rt, Duration::from_millis(1)))
}

/// A take that doesn't wait.
fn take_now<R: Wait>(rt: &R, queue: &Queue) -> Found {
    found_of(queue.try_take(rt))
}

/// Offers the same frame so often: whether each was taken in, as one more.
fn fill<R: Wait>(rt: &R, queue: &Queue, frame: &Bytes, count: usize) -> bool {
    for before in 0..count {
        let Ok(shared) = frame.clone() else {
            return false;
        };
        match queue.offer(rt, shared) {
            Ok(queued) if queued.waiting() == before + 1 => {}
            _ => return false,
        }
    }
    true
}

/// Fills the queue with this frame: one more finds room once one was taken.
fn assert_full<R: Wait + Abort>(rt: &R, alloc: Global, queue: &Queue, frame: &Bytes) {
    assert!(rt; fill(rt, queue, frame, MOST_FRAMES));
    assert_same(
        rt,
        &offer(rt, alloc, queue, 2),
        &Answer::Dropped(Cause::Full),
    );
    assert_same(rt, &take(rt, queue), &Found::Number(1));
    assert_same(
        rt,
        &offer(rt, alloc, queue, 2),
        &Answer::Queued(MOST_FRAMES),
    );
    assert_same(
        rt,
        &offer(rt, alloc, queue, 3),
        &Answer::Dropped(Cause::Full),
    );
}

#[test]
fn one_frame_more_than_fits(rt: HostRuntime) {
    let queue = queue_of(&rt, rt.alloc());
    let frame = frame_of(rt.alloc(), 1).expect(&rt, "no memory");
    assert_full(&rt, rt.alloc(), &queue, &frame);
}

/// A frame of so many bytes.
fn large<R: Abort>(rt: &R, alloc: Global, count: usize) -> Bytes {
    let bytes = vec![in alloc; 0u8; count].expect(rt, "no memory");
    Bytes::from_vec(bytes).expect(rt, "no memory")
}

#[test]
fn more_bytes_than_fit(rt: HostRuntime) {
    let queue = queue_of(&rt, rt.alloc());
    let half = large(&rt, rt.alloc(), MOST_BYTES / 2);
    assert!(rt; fill(&rt, &queue, &half, 2));
    assert_same(
        &rt,
        &offer(&rt, rt.alloc(), &queue, 1),
        &Answer::Dropped(Cause::Full),
    );
    assert_same(&rt, &take(&rt, &queue), &Found::Number(u32::MAX));
    assert_same(&rt, &offer(&rt, rt.alloc(), &queue, 1), &Answer::Queued(2));
}

#[test]
fn a_large_frame_that_is_alone_has_room(rt: HostRuntime) {
    let queue = queue_of(&rt, rt.alloc());
    let frame = large(&rt, rt.alloc(), MOST_BYTES + 1);
    assert!(rt; fill(&rt, &queue, &frame, 1));
    assert_same(
        &rt,
        &offer(&rt, rt.alloc(), &queue, 1),
        &Answer::Dropped(Cause::Full),
    );
}

/// What waits at the close of an empty queue still comes, and then its end.
fn assert_ends<R: Wait + Clock + Abort>(rt: &R, alloc: Global, queue: &Queue) {
    assert_same(rt, &take_soon(rt, queue), &Found::NotYet);
    assert_same(rt, &take_now(rt, queue), &Found::NotYet);
    assert_same(rt, &offer(rt, alloc, queue, 5), &Answer::Queued(1));
    assert_same(rt, &offer(rt, alloc, queue, 6), &Answer::Queued(2));
    queue.close(rt);
    assert_same(
        rt,
        &offer(rt, alloc, queue, 7),
        &Answer::Dropped(Cause::Closed),
    );
    assert_same(rt, &take_soon(rt, queue), &Found::Number(5));
    assert_same(rt, &take_now(rt, queue), &Found::Number(6));
    assert_same(rt, &take_now(rt, queue), &Found::End);
    assert_same(rt, &take(rt, queue), &Found::End);
    assert_same(rt, &take_soon(rt, queue), &Found::End);
}

#[test]
fn what_waits_at_the_end_is_taken(rt: HostRuntime) {
    let queue = queue_of(&rt, rt.alloc());
    assert_ends(&rt, rt.alloc(), &queue);
}

/// Offers the numbers below this one, each until there is room, and closes the queue: how many were
/// taken in.
fn offer_all<R: Wait>(rt: &R, alloc: Global, queue: &Queue, count: u32) -> u32 {
    let mut next = 0;
    for _ in rt.forever() {
        if next >= count {
            break;
        }
        match offer(rt, alloc, queue, next) {
            Answer::Queued(_) => next += 1,
            Answer::Dropped(Cause::Full) => thread::yield_now(),
            _ => break,
        }
    }
    queue.close(rt);
    next
}

/// Takes until the queue's end: how many of the numbers came in turn, from 0 on.
fn take_all<R: Wait>(rt: &R, queue: &Queue) -> u32 {
    let mut next = 0u32;
    for _ in rt.forever() {
        match take(rt, queue) {
            Found::Number(number) if number == next => next = next.saturating_add(1),
            Found::Number(_) => {}
            _ => break,
        }
    }
    next
}

/// So many numbers from one thread to another: how many were taken in, and how many came in turn.
fn relayed<R: Threads + Wait + Sync>(
    rt: &R,
    alloc: Global,
    queue: &Queue,
    count: u32,
) -> (u32, u32) {
    thread::join(
        rt,
        || offer_all(rt, alloc, queue, count),
        || take_all(rt, queue),
    )
}

#[test]
fn frames_come_in_order(rt: HostRuntime) {
    let queue = queue_of(&rt, rt.alloc());
    let (offered, taken) = relayed(&rt, rt.alloc(), &queue, 5000);
    assert_same(&rt, &offered, &5000);
    assert_same(&rt, &taken, &5000);
}

/// What two threads are told that wait at an empty queue while a third one closes it.
fn waited<R: Threads + Wait + Sync>(rt: &R, queue: &Queue) -> (Found, Found) {
    let takers = || thread::join(rt, || take(rt, queue), || take(rt, queue));
    thread::join(rt, takers, || queue.close(rt)).0
}

#[test]
fn who_waits_is_told_of_the_end(rt: HostRuntime) {
    let queue = queue_of(&rt, rt.alloc());
    let (first, second) = waited(&rt, &queue);
    assert_same(&rt, &first, &Found::End);
    assert_same(&rt, &second, &Found::End);
}

/// The queues of all links, as the threads at these links share them.
type Links = Mutex<Vec<Arc<Queue>>>;

/// Offers one frame to every link: how many took it in.
fn broadcast<R: Wait>(rt: &R, links: &Links, frame: &Bytes) -> usize {
    let links = links.lock(rt);
    let mut count = 0usize;
    for queue in links.iter() {
        let Ok(shared) = frame.clone() else {
            break;
        };
        if queue.offer(rt, shared).is_ok() {
            count = count.saturating_add(1);
        }
    }
    count
}

/// How many links took a frame in, and what came of it at one that waited for it.
fn broadcast_beside<R: Threads + Wait + Sync>(
    rt: &R,
    links: &Links,
    frame: &Bytes,
    link: &Queue,
) -> (usize, Found) {
    thread::join(rt, || broadcast(rt, links, frame), || take(rt, link))
}

/// An empty queue that threads share.
fn shared_queue<R: Abort>(rt: &R, alloc: Global) -> Arc<Queue> {
    Arc::new(alloc, queue_of(rt, alloc)).expect(rt, "no memory")
}

/// These queues, as threads share them.
fn links_of<R: Abort>(rt: &R, alloc: Global, queues: &[&Arc<Queue>]) -> Links {
    let mut links = Vec::new(alloc);
    for queue in queues {
        let shared = Arc::try_clone(queue).expect(rt, "no memory");
        links.push(shared).expect(rt, "no memory");
    }
    Mutex::new(links)
}

#[test]
fn a_full_link_leaves_the_others(rt: HostRuntime) {
    let slow = shared_queue(&rt, rt.alloc());
    let quick = shared_queue(&rt, rt.alloc());
    let frame = frame_of(rt.alloc(), 9).expect(&rt, "no memory");
    assert!(rt; fill(&rt, &slow, &frame, MOST_FRAMES));
    let links = links_of(&rt, rt.alloc(), &[&slow, &quick]);
    let (count, found) = broadcast_beside(&rt, &links, &frame, &quick);
    assert_same(&rt, &count, &1);
    assert_same(&rt, &found, &Found::Number(9));
}
