// The listing program (01 "Listing").
#![tactic(auto)]

use listing::capture;
use listing::capture::What;

fn main(rt: HostRuntime) {
    capture::run(&mut rt.stdin(), What::Entries);
}
