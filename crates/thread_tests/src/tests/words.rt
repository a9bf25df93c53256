//! What no contract says: that a seat comes to see what was published.

ghost use Rattle.std.specs.Prelude.{◌≡◌, ◌≤◌, ◌<◌, ◌^◌, IfOk};
ghost use Rattle.status_words.specs.Ends.{opened_table, opened_words};

use super::assert_same;
use status_words::{Node, Opened, Publisher, Seat, Status, Words};
use std::alloc::AllocError;
use std::marker::Brand;
use std::thread;
use std::thread::Threads;

/// The words of a node that was opened at (5, 9): what a first seat reads, what it and a second
/// one read once (6, 12) is published, and what the publishing seat reads.
fn seen_in_turn<J: Node>(opened: Opened) -> [Status; 4]
    requires named { opened_table opened ≡ J.table }
    requires lower { ((opened_words opened).height ≤ 6) × ((opened_words opened).delivered ≤ 12) }
{
    let (words, mut publisher) = opened.named::<J>();
    let mut first = publisher.seat(&words);
    let mut second = publisher.seat(&words);
    let mut own = publisher.seat(&words);
    let before = words.status(&mut first);
    let status = Status {
        height: 6,
        delivered: 12,
    };
    publisher.publish(&words, &mut own, status);
    [
        before,
        words.status(&mut first),
        words.status(&mut second),
        words.status(&mut own),
    ]
}

#[test]
fn seats_see_what_is_published(rt: HostRuntime) {
    let at_the_opening = Status {
        height: 5,
        delivered: 9,
    };
    let published = Status {
        height: 6,
        delivered: 12,
    };
    let opened = Opened::new(rt.alloc(), at_the_opening).expect(&rt, "no memory");
    let seen = seen_in_turn::<Brand>(opened);
    assert_same(
        &rt,
        &seen,
        &[at_the_opening, published, published, published],
    );
}

/// Publishes the heights from 1 on, each with three items.
fn publish_all<J: Node>(
    words: &Words<J>,
    publisher: &mut Publisher<J>,
    seat: &mut Seat<J>,
    heights: u64,
)
    requires lower { (publisher.old.height ≡ 0) × (publisher.old.delivered ≡ 0) }
    requires range { heights < 2 ^ 32 }
{
    let mut height = 0;
    while height < heights {
        height += 1;
        let status = Status {
            height,
            delivered: 3 * height,
        };
        publisher.publish(words, seat, status);
    }
}

/// Whether an answer is of words that `publish_all` publishes, the height first, and no part is
/// less than before.
fn is_lawful(before: Status, now: Status) -> bool {
    now.delivered % 3 == 0
        && now.delivered / 3 + 1 >= now.height
        && now.height >= before.height
        && now.delivered >= before.delivered
}

/// Looks until the height is reached, a hundred thousand times at most: whether each answer was
/// lawful.
fn watch<J: Node>(words: &Words<J>, mut seat: Seat<J>, heights: u64) -> bool {
    let mut before = Status {
        height: 0,
        delivered: 0,
    };
    for _ in 0..100_000u64 {
        let now = words.status(&mut seat);
        if !is_lawful(before, now) || now.height > heights || now.delivered / 3 > heights {
            return false;
        }
        if now.height == heights {
            return true;
        }
        before = now;
        thread::yield_now();
    }
    true
}

/// What two readers say of a thousand heights that a third thread publishes, and what stands then.
fn watched<J: Node + Send + Sync, R: Threads + Sync>(rt: &R, opened: Opened) -> (bool, bool, Status)
    requires named { opened_table opened ≡ J.table }
    requires lower { ((opened_words opened).height ≡ 0) × ((opened_words opened).delivered ≡ 0) }
{
    let (words, mut publisher) = opened.named::<J>();
    let shared = &words;
    let first = publisher.seat(shared);
    let second = publisher.seat(shared);
    let mut own = publisher.seat(shared);
    let watchers = || thread::join(
        rt,
        || watch(shared, first, 1000),
        || watch(shared, second, 1000),
    );
    let (told, ()) = thread::join(rt, watchers, || {
        publish_all(shared, &mut publisher, &mut own, 1000)
    });
    (told.0, told.1, words.status(&mut own))
}

#[test]
fn readers_beside_a_publisher(rt: HostRuntime) {
    let nothing = Status {
        height: 0,
        delivered: 0,
    };
    let last = Status {
        height: 1000,
        delivered: 3000,
    };
    let opened = Opened::new(rt.alloc(), nothing).expect(&rt, "no memory");
    let told = watched::<Brand, _>(&rt, opened);
    assert_same(&rt, &told, &(true, true, last));
}
