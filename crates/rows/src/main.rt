//! A program: runs the bench book's rows through the public calls, and says of each whether it shows what the book writes.
#![tactic(auto)]

mod rows;
mod run;

use crate::run::Run;

/// A row's number, and whether it agrees. Where the output can't be written, the program goes on as it always did, to status 0.
fn tell(rt: &impl Print, row: u32, run: Run) {
    let verdict = if run.agrees { "agrees" } else { "DIFFERS" };
    let _ = println!(rt; "{row} {verdict}");
}

fn main(rt: HostRuntime) {
    tell(&rt, 1, rows::shape(1, 2, 4));
    tell(&rt, 2, rows::shape(3, 4, 8));
    tell(&rt, 3, rows::shape(4, 8, 16));
    tell(&rt, 4, rows::shape(64, 128, 256));
    tell(&rt, 5, rows::full());
    tell(&rt, 6, rows::received());
    tell(&rt, 7, rows::three());
    tell(&rt, 8, rows::four());
    tell(&rt, 9, rows::receive_cycles());
    tell(&rt, 10, rows::send_cycles());
    tell(&rt, 11, rows::older());
    tell(&rt, 12, rows::late());
    tell(&rt, 12, rows::picked());
    tell(&rt, 13, rows::no_array(0));
    tell(&rt, 13, rows::no_array(65));
    tell(&rt, 14, rows::last_tick());
    tell(&rt, 15, rows::lonely());
    tell(&rt, 15, rows::two());
    tell(&rt, 15, rows::lonely_array());
    tell(&rt, 15, rows::built_lonely());
    tell(&rt, 16, rows::failed_send());
    tell(&rt, 16, rows::failed_receive());
    tell(&rt, 16, rows::no_exchange());
    tell(&rt, 16, rows::built_spent());
}
