//! The fields of a record, numbered.
ghost use Rattle.std.specs.Prelude.{◌≡◌, ◌<◌};
ghost use Rattle.waker.specs.Context.{threads};
ghost use Rattle.saved.specs.Fields.{field_count, flavour_number, word_number, head_field, thread_field, queue_field, field_of};

use crate::place::Numbers;
use bounds::flavour::Flavour;
use schedule::record::Record;
use waker::context::{Selected, Thread};
use waker::waker::Waker;

/// How many fields a record has.
pub const FIELDS: usize = 204;

/// The number of a channel's kind: its place in the enum.
fn flavour_number(flavour: Flavour) -> u64
    ensures { result ≡ flavour_number flavour }
{
    flavour as u64
}

/// The number of a select word: its place in the enum.
fn word_number(word: Selected) -> u64
    ensures { result ≡ word_number word }
{
    word as u64
}

// Stays a record and a number: the record is another crate's, and the number counts through its line.
/// A field of those that a record has once.
#[tactic(auto, unfolding(crate::specs::Fields::head_field))]
fn head_field(given: &Record, i: usize) -> u64
    ensures { result ≡ head_field given.now i }
{
    match i {
        0 => flavour_number(given.flavour),
        1 => given.shape.capacity,
        2 => given.shape.mark,
        3 => given.shape.lap,
        4 => u64::from(given.count),
        5 => u64::from(given.clock.0),
        6 => u64::from(given.steps),
        7 => given.array.head.0,
        8 => given.array.tail.0,
        _ => u64::from(given.zero.disconnected),
    }
}

// Stays a record and a number: the record is another crate's, and the number counts through its line.
/// A field of a thread's six.
#[tactic(auto, unfolding(crate::specs::Fields::thread_field))]
fn thread_field(given: &Record, at: usize, i: usize) -> u64
    requires { at < threads }
    ensures { result ≡ thread_field given.now at i }
{
    let numbers = Numbers::from(given.place(at));
    let thread = Thread(at as u32);
    let packet = given.zero.packet(thread);
    match i {
        0 => numbers.code,
        1 => numbers.first,
        2 => numbers.second,
        3 => word_number(given.zero.wakers.word(thread)),
        4 => u64::from(packet.message),
        _ => u64::from(packet.ready),
    }
}

/// A field of a queue: its length, then its entries.
#[tactic(auto, unfolding(crate::specs::Fields::queue_field))]
fn queue_field(queue: &Waker, i: usize) -> u64
    requires { i < 9 }
    ensures { result ≡ queue_field queue.now i }
{
    match i {
        0 => queue.len as u64,
        _ => u64::from(queue.selectors[i - 1].0),
    }
}

// Stays a record and a number: the record is another crate's, and the number counts through its line.
/// Field `i` of a record: its head, its threads, its queues, its slots.
#[tactic(auto, unfolding(crate::specs::Fields::field_of))]
pub fn field(given: &Record, i: usize) -> u64
    requires { i < field_count }
    ensures { result ≡ field_of given.now i }
{
    // Stays a match: the ranges are the line's, each of another part of the record.
    match i {
        0..10 => head_field(given, i),
        10..58 => thread_field(given, (i - 10) / 6, (i - 10) % 6),
        58..67 => queue_field(&given.zero.wakers.senders, i - 58),
        67..76 => queue_field(&given.zero.wakers.receivers, i - 67),
        76..140 => given.array.stamps[i - 76].0,
        _ => u64::from(given.array.messages[i - 140]),
    }
}
