// The listings of several captures, one behind the other: of the files that the arguments name, and for `-` of standard input. Behind `--payloads`, which is any longer word that
// begins like it, the payloads are listed instead.
#![tactic(auto)]

use listing::capture;
use listing::capture::What;
use std::env::{Env, FillError};
use std::fs::File;

fn main(rt: HostRuntime) {
    let mut space = io::buffer();
    let mut what = What::Entries;
    for i in 1..usize::MAX {
        match rt.arg(i, &mut space) {
            Ok(size) => what = of_word(&rt, &space[..size], what),
            Err(FillError::TooLong) => what = of_word(&rt, &space[..0], what),
            Err(FillError::NotPresent) => return,
        }
    }
}

// Does what a word says, and answers what is listed behind it. A word that is too long for a path is the empty one.
fn of_word(rt: &HostRuntime, word: &[u8], what: What) -> What {
    if word.is_empty() || word[0] != b'-' {
        of_file(rt, word, what);
        return what;
    }
    if word.len() == 1 {
        capture::run(&mut rt.stdin(), what);
        return what;
    }
    What::Payloads
}

// A file is opened by its name as text, so a name that is none names no file.
fn of_file(rt: &HostRuntime, name: &[u8], what: What) {
    match std::str::from_utf8(name) {
        Ok(text) => match File::open(rt, text) {
            Ok(mut file) => {
                capture::run(&mut file, what);
            }
            Err(_) => no_file(name),
        },
        Err(_) => no_file(name),
    }
}

fn no_file(name: &[u8]) {
    io::write_all(1, b"no file ");
    io::write_all(1, name);
    io::write_all(1, b"\n");
}
