// A test bench: a session of both ends, in which every message is written from field values and then judged on a table as its side sends it. What is printed is the listing
// of the session (01 "Listing"), in which all are accepted.
#![tactic(auto)]

mod bytes;
mod ids;
mod io_controls;
mod presence;
mod step;
mod transfers;

use table::table::open;

fn main() {
    io::write_all(
        1,
        b"number channel side kind answer request cause size stamp\n",
    );
    let new = open(1);
    let greeted = presence::greetings(new);
    let added = presence::added(greeted);
    let configured = transfers::configured(added);
    let asked = io_controls::asked(configured);
    let moved = transfers::moved(asked);
    let stopped = transfers::stopped(moved);
    let retracted = presence::retracted(stopped);
    // every entry has used one number, from 1 on
    let entries = retracted.next.saturating_sub(1);
    io::write_all(1, b"end ");
    io::print_decimal(1, u64::from(entries));
    io::write_all(1, b"\n");
}
