//! The bench book, row by row. A place's code is docs/TRACE.md's.
use crate::run::{Call, Field, Run};
use bounds::refusal::Refusal;
use channel::answer::{Answer, Tick};
use schedule::record::Record;
use waker::context::{Selected, Thread};

/// Rows 1 to 4: mark and lap of a capacity.
pub fn shape(capacity: u64, mark: u64, lap: u64) -> Run {
    Run::made(Record::make_array(capacity, 1))
        .shows(Field::Mark, mark)
        .shows(Field::Lap, lap)
}

/// Row 5: capacity 1 after one send: tail 4, stamp 1; a second `try_send` is Full by A, B, D.
pub fn full() -> Run {
    let one = Run::made(Record::make_array(1, 2))
        .sends(0, 42)
        .shows(Field::Tail, 4)
        .shows(Field::FirstStamp, 1);
    let second = one
        .begins(1, Call::TrySend(7))
        .stands(1, 0x1a)
        .goes(1, 0x1b)
        .goes(1, 0x1d);
    second.steps(1).takes(1, Answer::Full(7))
}

/// Row 6: then one receive: head 4, stamp 4.
pub fn received() -> Run {
    full()
        .receives(0, 42)
        .shows(Field::Head, 4)
        .shows(Field::FirstStamp, 4)
}

/// Row 7: capacity 3, three sends: tail 8, `len` 3.
pub fn three() -> Run {
    let sent = Run::made(Record::make_array(3, 1))
        .sends(0, 1)
        .sends(0, 2)
        .sends(0, 3);
    sent.shows(Field::Tail, 8).counts(0, 3)
}

/// Row 8: capacity 3, four sends and two receives, never above 3: tail 9, head 2, `len` 2.
pub fn four() -> Run {
    let two = Run::made(Record::make_array(3, 1))
        .sends(0, 1)
        .sends(0, 2)
        .receives(0, 1);
    let all = two.sends(0, 3).sends(0, 4).receives(0, 2);
    all.shows(Field::Tail, 9).shows(Field::Head, 2).counts(0, 2)
}

/// A sender stopped after C.
fn stalled(capacity: u64) -> Run {
    Run::made(Record::make_array(capacity, 2))
        .begins(0, Call::TrySend(42))
        .walks(0, 3)
        .stands(0, 0x1e)
}

/// Row 9: capacity 2: `len` 1, and another thread's `try_recv` cycles A, B, D.
pub fn receive_cycles() -> Run {
    let begun = stalled(2)
        .counts(1, 1)
        .begins(1, Call::TryReceive)
        .stands(1, 0x2a);
    let once = begun.goes(1, 0x2b).goes(1, 0x2d).goes(1, 0x2a);
    once.goes(1, 0x2b).goes(1, 0x2d).goes(1, 0x2a)
}

/// Row 10: capacity 1, same: a second `try_send` cycles A, B.
pub fn send_cycles() -> Run {
    let begun = stalled(1).begins(1, Call::TrySend(7)).stands(1, 0x1a);
    begun
        .goes(1, 0x1b)
        .goes(1, 0x1a)
        .goes(1, 0x1b)
        .goes(1, 0x1a)
}

/// Row 11: rendezvous, two receivers waiting: a send picks the older.
pub fn older() -> Run {
    let waiting = Run::made(Record::make_zero(3))
        .begins(2, Call::Receive(None))
        .steps(2)
        .begins(1, Call::Receive(None))
        .steps(1);
    let sent = waiting
        .begins(0, Call::Send(42))
        .goes(0, 0x31)
        .walks(0, 2)
        .takes(0, Answer::Sent);
    sent.walks(2, 2)
        .takes(2, Answer::Received(42))
        .stands(1, 0x43)
}

/// Row 12: deadline 0 at clock 0, nobody opposite: a `recv` joins, is Aborted at its first poll, answers Timeout at its next step;
pub fn late() -> Run {
    let joined = Run::made(Record::make_zero(2))
        .begins(0, Call::Receive(Some(0)))
        .goes(0, 0x43);
    joined
        .goes(0, 0x45)
        .shows(Field::FirstWord, Selected::Aborted as u64)
        .steps(0)
        .takes(0, Answer::Timeout(0))
}

/// picked before that poll, it receives.
pub fn picked() -> Run {
    let joined = Run::made(Record::make_zero(2))
        .begins(0, Call::Receive(Some(0)))
        .steps(0)
        .begins(1, Call::TrySend(42));
    let sent = joined.walks(1, 3).takes(1, Answer::Sent);
    sent.walks(0, 2).takes(0, Answer::Received(42))
}

/// Row 13: capacity 0 and 65: refusal 2.
pub fn no_array(capacity: u64) -> Run {
    Run::not_made(Record::make_array(capacity, 1), Refusal::Capacity)
}

/// Row 14: clock fffffffe plus 0 is accepted, plus 1 is refusal 9.
pub fn last_tick() -> Run {
    Run::made(Record::make_zero(2))
        .accepts(|record| record.advance(Tick(0xffff_fffe)))
        .accepts(|record| record.advance(Tick(0)))
        .refuses(|record| record.advance(Tick(1)), Refusal::ClockLimit)
}

/// Row 15: a rendezvous of one thread is refusal 3, and what is returned is all 0.
pub fn lonely() -> Run {
    Run::not_made(Record::make_zero(1), Refusal::ThreadCount)
        .shows(Field::Flavour, 0)
        .shows(Field::Count, 0)
}

/// Two threads make one.
pub fn two() -> Run {
    Run::made(Record::make_zero(2)).shows(Field::Count, 2)
}

/// An array may have one thread.
pub fn lonely_array() -> Run {
    Run::made(Record::make_array(1, 1)).shows(Field::Count, 1)
}

/// A rendezvous record built by hand with one thread is out of form.
pub fn built_lonely() -> Run {
    let mut built = Run::made(Record::make_zero(2));
    built.channel.count = 1;
    built.refuses(|record| record.advance(Tick(0)), Refusal::OutOfForm)
}

/// Row 16: an exchange that fails goes back from C to A, one step counted; at B it is refusal 14.
pub fn failed_send() -> Run {
    let at_b = Run::made(Record::make_array(1, 1))
        .begins(0, Call::TrySend(42))
        .steps(0)
        .refuses(|record| record.fail(Thread(0)), Refusal::NoExchange);
    let back = at_b
        .goes(0, 0x1c)
        .accepts(|record| record.fail(Thread(0)))
        .stands(0, 0x1a)
        .shows(Field::Steps, 3);
    back.walks(0, 5)
        .takes(0, Answer::Sent)
        .shows(Field::Tail, 4)
}

/// The same of a receive.
pub fn failed_receive() -> Run {
    let at_c = Run::made(Record::make_array(1, 1))
        .sends(0, 42)
        .begins(0, Call::TryReceive)
        .walks(0, 2);
    let back = at_c
        .stands(0, 0x2c)
        .accepts(|record| record.fail(Thread(0)))
        .stands(0, 0x2a)
        .shows(Field::Head, 0);
    back.walks(0, 5).takes(0, Answer::Received(42))
}

/// A rendezvous has no weak exchange; no such thread, and no running call, come first.
pub fn no_exchange() -> Run {
    Run::made(Record::make_zero(2))
        .refuses(|record| record.fail(Thread(2)), Refusal::NoSuchThread)
        .refuses(|record| record.fail(Thread(0)), Refusal::NotRunning)
        .begins(0, Call::Send(42))
        .refuses(|record| record.fail(Thread(0)), Refusal::NoExchange)
}

/// The step limit comes first too, on a record built by hand.
pub fn built_spent() -> Run {
    let mut built = Run::made(Record::make_array(1, 1)).begins(0, Call::TrySend(42));
    built.channel.steps = 1_000_000;
    built.refuses(|record| record.fail(Thread(0)), Refusal::StepLimit)
}
