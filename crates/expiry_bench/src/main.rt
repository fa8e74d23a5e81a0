//! Lives a waiting list's life, and times its calls.
//!
//! The word `time` measures puts and takes with 64 and with 4096 inodes: `bench/expiry.sh` shows the numbers, beside a tree of pairs. Any
//! other word, or none, lives one life with 64 inodes and prints what was taken.
#![tactic(auto)]

mod shape;
mod timed;

use shape::{Tally, wait_and_take};
use std::alloc::Global;
use std::process::ExitCode;
use std::{env, io};
use timed::print_times;

fn is_time(word: &[u8]) -> bool {
    match word {
        b"time" => true,
        _ => false,
    }
}

fn wants_times(rt: &HostRuntime) -> bool {
    let Ok(args) = env::args(rt) else {
        return false;
    };
    for word in args.skip(1) {
        if is_time(word.as_bytes()) {
            return true;
        }
    }
    false
}

fn show_life<R: Print>(rt: &R, alloc: Global) -> io::Result<bool> {
    match wait_and_take(alloc, 64, 1000) {
        Ok(Tally { pairs, sum, .. }) => {
            println!(rt; "{pairs} pairs were taken, with the sum {sum}")?;
            Ok(true)
        }
        Err(_) => Ok(false),
    }
}

fn main(rt: HostRuntime) -> ExitCode {
    let shown = if wants_times(&rt) {
        print_times(&rt, rt.alloc())
    } else {
        show_life(&rt, rt.alloc())
    };
    match shown {
        Ok(true) => ExitCode::SUCCESS,
        Ok(false) => ExitCode::from(2),
        Err(_) => ExitCode::from(1),
    }
}
