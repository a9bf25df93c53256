//! Client 7 closes a session and goes on in the next.

use super::assert_same;
use super::queues::{Validator, byte, bytes, value_alone, value_of};
use protocol::{Standing, SubmitFault};
use std::process::Abort;
use transactions::{Data, Op, Tx, Value, spell_value};

/// The tag of client 7's transaction of session 1 with number 1, the byte 62, by Python's module `hmac`.
const TAG_OF_BYTES: [u8; 32] = [
    0x37, 0xc7, 0x1d, 0xc0, 0x6c, 0x14, 0x45, 0xcb, 0x8b, 0xa8, 0x46, 0x04, 0xb4, 0x1a, 0x40, 0x13,
    0x4c, 0x58, 0x8a, 0xac, 0xe3, 0x84, 0x0d, 0x06, 0xc3, 0x27, 0xf5, 0x08, 0x3f, 0x4d, 0xd0, 0xcb,
];

/// The tag of client 7's close of session 1 with number 0, by the same.
const TAG_OF_ZERO: [u8; 32] = [
    0x4e, 0x8d, 0xe3, 0x42, 0x0b, 0xaa, 0x4b, 0xd9, 0x56, 0x89, 0xa6, 0xda, 0x0f, 0xe1, 0x97, 0xd8,
    0xa4, 0xc7, 0x05, 0x3d, 0x96, 0x85, 0x92, 0x91, 0x32, 0xe7, 0x79, 0xf5, 0xc4, 0x94, 0x15, 0xc3,
];

/// A transaction of client 7, by its session and its number.
#[derive(Clone, Copy, Debug, PartialEq, Eq)]
enum Sent {
    Bytes(u32, u64),
    Close(u32, u64),
}

use Sent::{Bytes, Close};

/// What is done with a validator, or looked at.
#[derive(Clone, Copy)]
enum Step<'a> {
    /// These are sent, and wait from then on.
    Queues(&'a [Sent]),
    /// Each is sent, and gets its answer.
    Answers(&'a [(Sent, Answer)]),
    /// A value of these is delivered, which another may have proposed.
    Delivers(&'a [Sent]),
    /// These wait, in this order.
    Waits(&'a [Sent]),
    /// Client 7 stands so after what is delivered and what waits: in this session, with this number, closed or not.
    Reaches(u32, u64, bool),
}

use Step::{Answers, Delivers, Queues, Reaches, Waits};

type Answer = Result<(), SubmitFault>;

const OLD: Answer = Err(SubmitFault::OldNumber);

const CLOSED: Answer = Err(SubmitFault::Closed);

const AHEAD: Answer = Err(SubmitFault::SessionAhead);

const GAP: Answer = Err(SubmitFault::Gap);

const FULL: Answer = Err(SubmitFault::QueueFull);

/// Where nothing is delivered, and nothing waits.
const AT_FIRST: [(Sent, Answer); 5] = [
    (Bytes(1, 1), AHEAD),
    (Bytes(2, 5), AHEAD),
    (Close(u32::MAX, 1), AHEAD),
    (Bytes(0, 2), GAP),
    (Close(0, 1), Ok(())),
];

/// Where session 0 is closed by its transaction 1, of which it doesn't matter whether it waits or is delivered.
const AFTER_A_CLOSE: [(Sent, Answer); 8] = [
    (Bytes(0, 1), OLD),
    (Bytes(0, 2), CLOSED),
    (Close(0, 3), CLOSED),
    (Bytes(2, 1), AHEAD),
    (Bytes(2, 2), AHEAD),
    (Bytes(u32::MAX, 1), AHEAD),
    (Bytes(1, 2), GAP),
    (Bytes(1, 1), Ok(())),
];

/// And then transaction 1 of session 1 waits, so that session 0 is closed and isn't the last.
const IN_THE_NEXT_SESSION: [(Sent, Answer); 7] = [
    (Bytes(0, 1), OLD),
    (Bytes(0, 2), CLOSED),
    (Bytes(1, 1), OLD),
    (Bytes(1, 3), GAP),
    (Bytes(2, 1), AHEAD),
    (Bytes(2, 5), AHEAD),
    (Close(1, 2), Ok(())),
];

/// And then transaction 1 of session 1 is delivered too, so that all of session 0 is old; the close of session 1 waits.
const WITH_THE_NEXT_DELIVERED: [(Sent, Answer); 6] = [
    (Bytes(0, 2), OLD),
    (Close(1, 2), OLD),
    (Bytes(1, 3), CLOSED),
    (Bytes(3, 1), AHEAD),
    (Bytes(2, 2), GAP),
    (Bytes(2, 1), Ok(())),
];

/// Where 64 transactions wait, 32 of session 0 and 32 of session 1, which is closed.
const WHERE_THE_QUEUE_IS_FULL: [(Sent, Answer); 6] = [
    (Bytes(0, 32), OLD),
    (Bytes(0, 33), CLOSED),
    (Bytes(1, 33), CLOSED),
    (Bytes(3, 1), AHEAD),
    (Bytes(2, 2), GAP),
    (Bytes(2, 1), FULL),
];

/// What waits before another's value is delivered: the ends of two sessions, and the beginning of a third.
const QUEUED: [Sent; 6] = [
    Bytes(0, 1),
    Bytes(0, 2),
    Close(0, 3),
    Bytes(1, 1),
    Close(1, 2),
    Bytes(2, 1),
];

/// What is delivered then, whoever sent it, and what waits behind it.
const DELIVERIES: [(&[Sent], &[Sent]); 10] = [
    (&[], &QUEUED),
    (
        &[Bytes(0, 1)],
        &[
            Bytes(0, 2),
            Close(0, 3),
            Bytes(1, 1),
            Close(1, 2),
            Bytes(2, 1),
        ],
    ),
    // The session ends where it ends here, too.
    (
        &[Bytes(0, 1), Bytes(0, 2), Close(0, 3)],
        &[Bytes(1, 1), Close(1, 2), Bytes(2, 1)],
    ),
    // It ends earlier, so that what waits next is none of a session that goes on.
    (&[Close(0, 1)], &[]),
    (&[Bytes(0, 1), Close(0, 2)], &[]),
    // It doesn't end yet.
    (&[Bytes(0, 1), Bytes(0, 2), Bytes(0, 3)], &[]),
    // What is delivered ends within the next session.
    (
        &[Bytes(0, 1), Bytes(0, 2), Close(0, 3), Bytes(1, 1)],
        &[Close(1, 2), Bytes(2, 1)],
    ),
    (&[Close(0, 1), Bytes(1, 1)], &[Close(1, 2), Bytes(2, 1)]),
    // That one ends earlier too, or all that waits is delivered.
    (&[Bytes(0, 1), Close(0, 2), Close(1, 1)], &[]),
    (&[Close(0, 1), Bytes(1, 1), Close(1, 2), Bytes(2, 1)], &[]),
];

impl Sent {
    /// The transaction, as it waits or is proposed.
    fn of(tx: &Tx) -> Sent {
        match tx.op {
            Op::Bytes(_) => Bytes(tx.session, tx.number),
            Op::Close => Close(tx.session, tx.number),
        }
    }
}

/// Whether these are the transactions of these clients, in this order.
fn are_of_clients(txs: &[Tx], sent: &[(u16, Sent)]) -> bool {
    txs.len() == sent.len()
        && txs
            .iter()
            .zip(sent)
            .all(|(tx, sent)| tx.client == sent.0 && Sent::of(tx) == sent.1)
}

/// Whether these are client 7's transactions, in this order.
fn are_of_seven(txs: &[Tx], sent: &[Sent]) -> bool {
    txs.len() == sent.len()
        && txs
            .iter()
            .zip(sent)
            .all(|(tx, sent)| tx.client == 7 && Sent::of(tx) == *sent)
}

impl Validator {
    /// The transaction with the tag for this validator.
    fn of_seven<R: Abort + AllocGlobal>(&self, rt: &R, sent: Sent) -> Tx {
        match sent {
            Bytes(session, number) => self.tagged(rt, 7, session, number, bytes(rt, 2)),
            Close(session, number) => self.tagged(rt, 7, session, number, Op::Close),
        }
    }

    /// The value of these.
    fn value_of_seven<R: Abort + AllocGlobal>(&self, rt: &R, sent: &[Sent]) -> Value {
        let mut txs = Vec::new(self.alloc);
        for each in sent {
            txs.push(self.of_seven(rt, *each)).expect(rt, "it has room");
        }
        value_of(rt, txs)
    }

    /// It gets this answer.
    fn answers_one<R: Abort + AllocGlobal>(&mut self, rt: &R, sent: Sent, answer: Answer) {
        let tx = self.of_seven(rt, sent);
        assert_same(rt, &(sent, self.submit(tx)), &(sent, answer));
    }

    /// Each gets its answer.
    fn answers_seven<R: Abort + AllocGlobal>(&mut self, rt: &R, cases: &[(Sent, Answer)]) {
        for (sent, answer) in cases {
            self.answers_one(rt, *sent, *answer);
        }
    }

    /// These are sent, and wait from then on.
    fn queues<R: Abort + AllocGlobal>(&mut self, rt: &R, sent: &[Sent]) {
        for each in sent {
            self.answers_one(rt, *each, Ok(()));
        }
    }

    /// A value of these is delivered.
    fn delivers<R: Abort + AllocGlobal>(&mut self, rt: &R, sent: &[Sent]) {
        let value = self.value_of_seven(rt, sent);
        self.take(rt, &value);
        self.mempool.drop_delivered(&self.frontier);
    }

    /// These wait, in this order.
    fn waits<R: Abort + AllocGlobal>(&self, rt: &R, sent: &[Sent]) {
        assert!(rt; are_of_seven(self.mempool.waiting(7), sent), "{sent:?}");
    }

    /// Client 7 stands so after what is delivered and what waits.
    fn reaches<R: Abort + AllocGlobal>(&self, rt: &R, session: u32, last: u64, closed: bool) {
        let reached = Standing {
            session,
            last,
            closed,
        };
        assert_same(rt, &self.mempool.reached(7, &self.frontier), &reached);
    }

    /// Takes one step.
    fn takes<R: Abort + AllocGlobal>(&mut self, rt: &R, step: &Step) {
        match step {
            Queues(sent) => self.queues(rt, sent),
            Answers(cases) => self.answers_seven(rt, cases),
            Delivers(sent) => self.delivers(rt, sent),
            Waits(sent) => self.waits(rt, sent),
            Reaches(session, last, closed) => self.reaches(rt, *session, *last, *closed),
        }
    }

    /// Takes these steps in turn.
    fn plays<R: Abort + AllocGlobal>(&mut self, rt: &R, steps: &[Step]) {
        for step in steps {
            self.takes(rt, step);
        }
    }
}

/// The first of four validators takes these steps, from nothing.
fn plays<R: Abort + AllocGlobal>(rt: &R, steps: &[Step]) {
    let mut validator = Validator::new(rt, 4);
    validator.plays(rt, steps);
}

/// The close of session 0 waits, and then it is delivered.
#[test]
fn causes_after_a_delivered_close(rt: HostRuntime) {
    plays(
        &rt,
        &[
            Answers(&AT_FIRST),
            Reaches(0, 1, true),
            Answers(&AFTER_A_CLOSE[..7]),
            Delivers(&[Close(0, 1)]),
            Reaches(0, 1, true),
            Answers(&AFTER_A_CLOSE),
            Reaches(1, 1, false),
            Waits(&[Bytes(1, 1)]),
            Answers(&IN_THE_NEXT_SESSION),
            Delivers(&[Bytes(1, 1)]),
            Answers(&WITH_THE_NEXT_DELIVERED),
            Waits(&[Close(1, 2), Bytes(2, 1)]),
        ],
    );
}

#[test]
fn causes_after_a_queued_close(rt: HostRuntime) {
    plays(
        &rt,
        &[
            Queues(&[Close(0, 1)]),
            Answers(&AFTER_A_CLOSE),
            Answers(&IN_THE_NEXT_SESSION),
            Delivers(&[Close(0, 1), Bytes(1, 1)]),
            Answers(&WITH_THE_NEXT_DELIVERED),
            Waits(&[Close(1, 2), Bytes(2, 1)]),
        ],
    );
}

/// So many transactions of a session wait, the last of which is its close.
fn fill_with<R: Abort + AllocGlobal>(rt: &R, validator: &mut Validator, session: u32, count: u64) {
    for number in 1..count {
        validator.answers_one(rt, Bytes(session, number), Ok(()));
    }
    validator.answers_one(rt, Close(session, count), Ok(()));
}

/// Two sessions of 32 transactions fill the queue.
#[test]
fn all_sessions_share_a_queue(rt: HostRuntime) {
    let mut validator = Validator::new(&rt, 4);
    fill_with(&rt, &mut validator, 0, 32);
    fill_with(&rt, &mut validator, 1, 32);
    assert_same(&rt, &validator.mempool.waiting(7).len(), &64);
    validator.plays(
        &rt,
        &[
            Answers(&WHERE_THE_QUEUE_IS_FULL),
            Delivers(&[Bytes(0, 1)]),
            Answers(&[(Bytes(2, 1), Ok(()))]),
        ],
    );
}

/// What is too long or of an unknown client is refused for that, whatever its session.
fn judge_before_sessions<R: Abort + AllocGlobal>(rt: &R, validator: &mut Validator) {
    let mut too_long = validator.tagged(rt, 10, 5, 9, Op::Close);
    too_long.op = bytes(rt, 1025);
    assert_same(rt, &validator.submit(too_long), &Err(SubmitFault::TooLong));
    let unknown = validator.tagged(rt, 10, 5, 9, Op::Close);
    let found = validator.submit(unknown);
    assert_same(rt, &found, &Err(SubmitFault::UnknownClient));
}

/// And so is a transaction under the tag of another session.
fn judge_moved<R: Abort + AllocGlobal>(
    rt: &R,
    validator: &mut Validator,
    sent: Sent,
    session: u32,
) {
    let mut moved = validator.of_seven(rt, sent);
    moved.session = session;
    assert_same(rt, &validator.submit(moved), &Err(SubmitFault::BadTag));
}

#[test]
fn causes_before_those_of_sessions(rt: HostRuntime) {
    let mut validator = Validator::new(&rt, 4);
    judge_before_sessions(&rt, &mut validator);
    judge_moved(&rt, &mut validator, Bytes(0, 1), 1);
    judge_moved(&rt, &mut validator, Bytes(5, 9), 0);
}

/// A transaction of the byte 62 gets this answer under the tag of session 1's transaction 1.
fn answers_to_bytes<R: Abort + AllocGlobal>(
    rt: &R,
    validator: &mut Validator,
    session: u32,
    answer: Answer,
) {
    let found = validator.answer_to_tag(rt, 7, session, 1, byte(rt, b'b'), &TAG_OF_BYTES);
    assert_same(rt, &found, &answer);
}

/// A close of session 1 with number 0 gets this answer under its known tag.
fn answers_to_zero<R: Abort + AllocGlobal>(rt: &R, validator: &mut Validator, answer: Answer) {
    let found = validator.answer_to_tag(rt, 7, 1, 0, Op::Close, &TAG_OF_ZERO);
    assert_same(rt, &found, &answer);
}

/// Known tags of session 1, which number 0 does not begin, and number 1 does.
#[test]
fn known_tags_of_a_later_session(rt: HostRuntime) {
    let mut validator = Validator::new(&rt, 1);
    validator.queues(&rt, &[Close(0, 1)]);
    answers_to_zero(&rt, &mut validator, GAP);
    answers_to_bytes(&rt, &mut validator, 2, Err(SubmitFault::BadTag));
    answers_to_bytes(&rt, &mut validator, 1, Ok(()));
    answers_to_zero(&rt, &mut validator, OLD);
}

#[test]
fn what_waits_goes_on_from_what_is_delivered(rt: HostRuntime) {
    for (delivered, waiting) in &DELIVERIES {
        let steps = [Queues(&QUEUED), Delivers(delivered), Waits(waiting)];
        plays(&rt, &steps);
    }
}

/// Another's close has dropped all: the client goes on from there.
#[test]
fn the_next_follows_a_close_of_another(rt: HostRuntime) {
    plays(
        &rt,
        &[
            Queues(&QUEUED),
            Delivers(&[Bytes(0, 1), Close(0, 2)]),
            Answers(&[
                (Close(0, 3), CLOSED),
                (Bytes(2, 1), AHEAD),
                (Bytes(1, 1), Ok(())),
            ]),
        ],
    );
}

/// And so has another's transaction in place of the own close.
#[test]
fn the_next_follows_what_stands_for_the_own_close(rt: HostRuntime) {
    plays(
        &rt,
        &[
            Queues(&QUEUED),
            Delivers(&[Bytes(0, 1), Bytes(0, 2), Bytes(0, 3)]),
            Answers(&[
                (Close(0, 3), OLD),
                (Bytes(1, 1), AHEAD),
                (Close(0, 4), Ok(())),
            ]),
        ],
    );
}

/// Client 8's two transactions wait.
fn queue_two_of_another<R: Abort + AllocGlobal>(rt: &R, validator: &mut Validator) {
    for number in [1, 2] {
        let op = Op::Bytes(Data::new());
        let other = validator.tagged(rt, 8, 0, number, op);
        assert_same(rt, &validator.submit(other), &Ok(()));
    }
}

/// These clients' transactions are picked.
fn assert_picked<R: Abort + AllocGlobal>(rt: &R, validator: &Validator, wanted: &[(u16, Sent)]) {
    let value = validator.picked(rt);
    assert!(rt; are_of_clients(value.txs.as_slice(), wanted));
}

/// Client 8's transactions stand between those of two sessions of client 7.
#[test]
fn a_value_spans_sessions(rt: HostRuntime) {
    let mut validator = Validator::new(&rt, 4);
    validator.queues(&rt, &[Close(0, 1), Bytes(1, 1), Close(1, 2)]);
    queue_two_of_another(&rt, &mut validator);
    let wanted = &[
        (7, Close(0, 1)),
        (8, Bytes(0, 1)),
        (7, Bytes(1, 1)),
        (8, Bytes(0, 2)),
        (7, Close(1, 2)),
    ];
    assert_picked(&rt, &validator, wanted);
    validator.deliver(&rt);
    validator.plays(
        &rt,
        &[
            Waits(&[]),
            Reaches(1, 2, true),
            Answers(&[(Bytes(0, 2), OLD), (Bytes(2, 1), Ok(()))]),
        ],
    );
}

/// Whether a value of this transaction alone is genuine.
fn is_genuine<R: Abort + AllocGlobal>(rt: &R, validator: &Validator, tx: Tx) -> bool {
    let value = value_alone(rt, tx);
    let _spelling = spell_value(validator.alloc, &value).expect(rt, "it has a spelling");
    validator.mempool.is_genuine(&validator.ring, &value)
}

/// The transaction is genuine with its tag, and not with another.
fn judge_genuine<R: Abort + AllocGlobal>(rt: &R, validator: &Validator, sent: Sent) {
    let right = validator.of_seven(rt, sent);
    assert_same(rt, &(sent, is_genuine(rt, validator, right)), &(sent, true));
    let wrong = validator.with_tag(rt, validator.of_seven(rt, sent), [9; 32]);
    assert_same(
        rt,
        &(sent, is_genuine(rt, validator, wrong)),
        &(sent, false),
    );
}

/// Transactions of two sessions that wait have one number, and one that doesn't wait is of a third.
#[test]
fn sessions_that_wait_are_genuine_by_their_tags(rt: HostRuntime) {
    let mut validator = Validator::new(&rt, 4);
    validator.queues(&rt, &[Close(0, 1), Bytes(1, 1)]);
    judge_genuine(&rt, &validator, Close(0, 1));
    judge_genuine(&rt, &validator, Bytes(0, 1));
    judge_genuine(&rt, &validator, Bytes(1, 1));
    judge_genuine(&rt, &validator, Close(1, 1));
    judge_genuine(&rt, &validator, Bytes(2, 1));
}

/// Clients 1 to 5 close session 0.
fn close_first_sessions<R: Abort + AllocGlobal>(rt: &R, validator: &mut Validator) {
    for client in 1..6 {
        let close = validator.tagged(rt, client, 0, 1, Op::Close);
        assert_same(rt, &validator.submit(close), &Ok(()));
    }
}

/// Clients 1 to 5 each send twenty of the longest transactions of session 1.
fn fill_with_longest<R: Abort + AllocGlobal>(rt: &R, validator: &mut Validator) {
    for number in 1..21 {
        for client in 1..6 {
            let longest = validator.tagged(rt, client, 1, number, bytes(rt, 1024));
            assert_same(rt, &validator.submit(longest), &Ok(()));
        }
    }
}

#[test]
fn most_bytes_of_later_sessions(rt: HostRuntime) {
    let mut validator = Validator::new(&rt, 128);
    close_first_sessions(&rt, &mut validator);
    validator.deliver(&rt);
    fill_with_longest(&rt, &mut validator);
    validator.picks_so_many(&rt, 97, 498_485);
}
