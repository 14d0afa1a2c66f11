//! A program: makes arrays of every capacity for every number of threads, one after the other, and shows the last. It is there to be counted.
#![tactic(auto)]

use saved::line;
use saved::line::LINE;
use schedule::record::Record;

/// A hundred times the 64 capacities for the 8 numbers of threads.
const MAKINGS: u64 = 51_200;

/// The last array that is made.
fn last_made() -> Record {
    let mut made = Record::make_array(1, 1);
    for n in 1..MAKINGS {
        made = Record::make_array(n % 64 + 1, (n / 64 % 8 + 1) as u32);
    }
    made.next
}

/// Where the output can't be written, the program ends as it always did, with status 0.
fn main(rt: HostRuntime) {
    // Stays on the stack: no heap, a rule of the project.
    let mut out = [0u8; LINE];
    line::put_record(&mut out, 0, &last_made());
    let _ = rt.stdout().write_all(&out);
}
