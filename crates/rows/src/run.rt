//! A history of public calls under test: the record, and whether it has shown what was expected so far.
use bounds::refusal::{Refusal, Reply};
use channel::answer::{Answer, Tick};
use places::begin::NO_DEADLINE;
use saved::fields;
use saved::place::Numbers;
use schedule::record::{Record, Replied};
use waker::context::{THREADS, Thread};

/// A call that a row begins: a send with its message, a receive with its deadline in ticks, if it has one.
#[derive(Clone, Copy, Debug, PartialEq, Eq)]
pub enum Call {
    TrySend(u32),
    TryReceive,
    Send(u32),
    Receive(Option<u32>),
    Len,
}

/// The fields that a row looks at, by their numbers in a record's line.
#[derive(Clone, Copy, Debug, PartialEq, Eq)]
pub enum Field {
    Flavour = 0,
    Mark = 2,
    Lap = 3,
    Count = 4,
    Steps = 6,
    Head = 7,
    Tail = 8,
    FirstWord = 13,
    FirstStamp = 76,
}

// Stays a flag beside the record: where a row differs, its run goes on, and the record is still looked at.
/// The record, and whether all agreed so far.
#[derive(Clone, Copy, Debug, PartialEq, Eq)]
pub struct Run {
    pub channel: Record,
    pub agrees: bool,
}

impl Run {
    /// A making whose reply must be this one.
    fn made_by(replied: Replied, reply: Reply) -> Run {
        Run {
            channel: replied.next,
            agrees: replied.reply == reply,
        }
    }

    /// A making that must be accepted.
    pub fn made(replied: Replied) -> Run {
        Run::made_by(replied, Ok(None))
    }

    /// A making that must be refused.
    pub fn not_made(replied: Replied, refusal: Refusal) -> Run {
        Run::made_by(replied, Err(refusal))
    }

    /// The same record, of which this must hold.
    fn and(self, holds: bool) -> Run {
        Run {
            agrees: self.agrees && holds,
            ..self
        }
    }

    /// A call whose reply must be this one.
    fn calls(self, replied: Replied, reply: Reply) -> Run {
        Run::made_by(replied, reply).and(self.agrees)
    }

    /// A call that must be accepted.
    pub fn accepts<F: FnOnce(Record) -> Replied>(self, call: F) -> Run
        requires { F.IsAlwaysCallable call }
    {
        self.calls(call(self.channel), Ok(None))
    }

    /// A call that must be refused.
    pub fn refuses<F: FnOnce(Record) -> Replied>(self, call: F, refusal: Refusal) -> Run
        requires { F.IsAlwaysCallable call }
    {
        self.calls(call(self.channel), Err(refusal))
    }

    // Stays this constant: `Record::begin` takes a tick, and so spells that there is no deadline.
    /// A call begins, and must be accepted.
    pub fn begins(self, thread: u32, call: Call) -> Run {
        let (code, message, deadline) = match call {
            Call::TrySend(message) => (1, message, None),
            Call::TryReceive => (2, 0, None),
            Call::Send(message) => (3, message, None),
            Call::Receive(deadline) => (4, 0, deadline),
            Call::Len => (5, 0, None),
        };
        let deadline = deadline.map_or(NO_DEADLINE, Tick);
        self.accepts(|record| record.begin(Thread(thread), code, message, deadline))
    }

    /// A step, which must be accepted.
    pub fn steps(self, thread: u32) -> Run {
        self.accepts(|record| record.step(Thread(thread)))
    }

    /// Some steps of a thread, each of which must be accepted.
    pub fn walks(self, thread: u32, steps: u32) -> Run {
        (0..steps).fold(self, |run, _| run.steps(thread))
    }

    // Stays a number: the bench book names steps by letters, as the codes do, and a pattern for each place is no plainer.
    /// A step, after which the thread must stand here.
    pub fn goes(self, thread: u32, code: u64) -> Run {
        self.steps(thread).stands(thread, code)
    }

    /// The thread's answer must be this one.
    pub fn takes(self, thread: u32, answer: Answer) -> Run {
        self.calls(self.channel.take(Thread(thread)), Ok(Some(answer)))
    }

    /// A field of the record must have this value.
    pub fn shows(self, field: Field, value: u64) -> Run {
        self.and(fields::field(&self.channel, field as usize) == value)
    }

    // Stays a number: the bench book names steps by letters, as the codes do, and a pattern for each place is no plainer.
    /// Where a thread stands must have this code, which docs/TRACE.md lists.
    pub fn stands(self, thread: u32, code: u64) -> Run {
        let at = thread as usize;
        self.and(at < THREADS && Numbers::from(self.channel.place(at)).code == code)
    }

    /// A call in one go of so many steps, its answer taken.
    fn goes_through(self, thread: u32, call: Call, steps: u32, answer: Answer) -> Run {
        self.begins(thread, call)
            .walks(thread, steps)
            .takes(thread, answer)
    }

    // Stays a word of its own, as the bench book's rows read: what is alike in the three is `goes_through`.
    /// A `try_send` in one go, its answer taken.
    pub fn sends(self, thread: u32, message: u32) -> Run {
        self.goes_through(thread, Call::TrySend(message), 5, Answer::Sent)
    }

    // Stays a word of its own, as the bench book's rows read: what is alike in the three is `goes_through`.
    /// A `try_recv` in one go, its answer taken.
    pub fn receives(self, thread: u32, message: u32) -> Run {
        self.goes_through(thread, Call::TryReceive, 5, Answer::Received(message))
    }

    // Stays a word of its own, as the bench book's rows read: what is alike in the three is `goes_through`.
    /// A `len` in one go, its answer taken.
    pub fn counts(self, thread: u32, n: u32) -> Run {
        self.goes_through(thread, Call::Len, 3, Answer::Number(n))
    }
}
