//! Lives a throttle's life, and times the calls of a throttle.
//!
//! The word `time` measures calls, on one thread and on four, beside the atomic operations that they are made of: `bench/table.sh`
//! shows the numbers. Any other word, or none, lives one life of `caller_of_throttle` and prints what was left.
#![tactic(auto)]

mod bare;
mod timed;

use caller_of_throttle::life::life;
use std::alloc::Global;
use std::process::ExitCode;
use std::thread::Threads;
use std::{env, io};
use timed::print_times;
use wbt_io::FreeGate;

fn is_time(word: &[u8]) -> bool {
    match word {
        b"time" => true,
        _ => false,
    }
}

fn wants_times(rt: &HostRuntime) -> bool {
    let Ok(args) = env::args(rt) else {
        return false;
    };
    for word in args.skip(1) {
        if is_time(word.as_bytes()) {
            return true;
        }
    }
    false
}

fn show_life<R: Threads + Print>(rt: &R, alloc: Global) -> io::Result<bool> {
    match life(rt, alloc, &FreeGate) {
        Ok(left) => {
            println!(rt; "{left} pages are left, of at most 292")?;
            Ok(true)
        }
        Err(_) => Ok(false),
    }
}

fn main(rt: HostRuntime) -> ExitCode {
    let shown = if wants_times(&rt) {
        print_times(&rt, rt.alloc())
    } else {
        show_life(&rt, rt.alloc())
    };
    match shown {
        Ok(true) => ExitCode::SUCCESS,
        Ok(false) => ExitCode::from(2),
        Err(_) => ExitCode::from(1),
    }
}
