//! The bounds, and the refusals that stand on them alone: 2, 3, 4, 8 and 9.
ghost use Rattle.std.specs.Prelude.{◌≡◌, ◌<◌};
ghost use Rattle.bounds.specs.Limits.{step_limit, capacity_fits, fewest, count_fits, bounds_hold, making, naming, stepping, one_more, later};

use crate::flavour::Flavour;
use crate::refusal::Refusal;
use channel::answer::Tick;
use channel::position::SLOTS;
use waker::context::{THREADS, Thread};

/// How many steps a record may make.
pub const STEP_LIMIT: u32 = 1_000_000;

/// The last tick of the clock.
pub const CLOCK_LIMIT: Tick = Tick(0xffff_fffe);

/// An array's capacity is from 1 to 64 messages; a rendezvous has none.
fn capacity_fits(flavour: Flavour, capacity: u64) -> bool
    ensures { result ≡ capacity_fits flavour capacity }
{
    match flavour {
        Flavour::Zero => true,
        Flavour::Array => (1..=SLOTS as u64).contains(&capacity),
    }
}

// Stays a match: a bound of each flavour, not its number.
/// The fewest threads: a rendezvous needs two to meet.
fn fewest(flavour: Flavour) -> u32
    ensures { result ≡ fewest flavour }
{
    // Stay numbers: they are counts of threads.
    match flavour {
        Flavour::Zero => 2,
        Flavour::Array => 1,
    }
}

/// Threads are from the fewest to 8.
fn count_fits(flavour: Flavour, count: u32) -> bool
    ensures { result ≡ count_fits flavour count }
{
    (fewest(flavour)..=THREADS as u32).contains(&count)
}

/// The bounds hold of a record's threads, steps and clock.
pub fn bounds_hold(flavour: Flavour, count: u32, steps: u32, clock: Tick) -> bool
    ensures { result ≡ bounds_hold flavour count steps clock }
{
    count_fits(flavour, count) && steps <= STEP_LIMIT && clock <= CLOCK_LIMIT
}

/// May a channel of this capacity, in messages, be made for so many threads? Else 2 or 3, and 2 before 3.
pub fn making(flavour: Flavour, capacity: u64, count: u32) -> Result<(), Refusal>
    ensures { result ≡ making flavour capacity count }
{
    if !capacity_fits(flavour, capacity) {
        return Err(Refusal::Capacity);
    }
    if !count_fits(flavour, count) {
        return Err(Refusal::ThreadCount);
    }
    Ok(())
}

/// Is there such a thread in a record of so many threads? Else 4.
pub fn naming(count: u32, thread: Thread) -> Result<(), Refusal>
    ensures { result ≡ naming count thread }
{
    // Stays `.0`: a count of threads is compared, which is no Thread itself.
    if count <= thread.0 {
        return Err(Refusal::NoSuchThread);
    }
    Ok(())
}

/// May a record with so many steps make another? Else 8.
pub fn stepping(steps: u32) -> Result<(), Refusal>
    ensures { result ≡ stepping steps }
{
    if STEP_LIMIT <= steps {
        return Err(Refusal::StepLimit);
    }
    Ok(())
}

/// The steps after one more: every step is counted, an idle poll and a failed exchange too.
pub fn one_more(steps: u32) -> u32
    requires { steps < step_limit }
    ensures { result ≡ one_more steps }
{
    steps + 1
}

/// The clock after so many ticks more. Past its last tick, 9.
pub fn later(clock: Tick, ticks: Tick) -> Result<Tick, Refusal>
    ensures { result ≡ later clock ticks }
{
    let sum = clock.0.checked_add(ticks.0).map(Tick);
    sum.filter(|&sum| sum <= CLOCK_LIMIT)
        .ok_or(Refusal::ClockLimit)
}
