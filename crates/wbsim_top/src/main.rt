//! `wbsim`: what a machine's control of dirty pages does on a trace.
//!
//! Its calls are those of `wbt_top` and `wbt_top_plain`. `main` hands them the words, standard input and standard output, the machine's
//! clock and a rack of disks that don't fail, and ends as they answer: what it returns is made by such a call alone. Runs stand behind a
//! gate that stops nobody.
#![tactic(auto)]

ghost use Rattle.std.specs.Prelude.{◌≡◌, ◌↔◌, [], drop, IfOk, IsOk};
ghost use Rattle.std.specs.Vec.Iter.{into_iter_items};

use std::alloc::{AllocError, Global};
use std::env::Args;
use std::io::ErrorKind;
use std::{env, io};
use wbt_io::{ModelRack, RealClock, StdSink, StdSource};
use wbt_num::Items;
use wbt_top::Ended;
use wbt_top_plain::{Route, Words, route};

// The words after the program's name, which comes first.
fn after_name(args: Args, alloc: Global) -> Result<Words, AllocError>
    ensures { IfOk result (λ words. words.list ≡ drop 1 (into_iter_items args)) }
{
    let list = args.skip(1).collect(alloc)?;
    Ok(Words {
        list: Items::from_vec(list),
    })
}

// The words where the system hands over none. Where one of them is no text, no command has them, and they are as none; else there is no
// memory for them.
fn instead(fault: ErrorKind, alloc: Global) -> Result<Words, AllocError>
    ensures no_text { IsOk result ↔ (fault ≡ ErrorKind.InvalidData) }
    ensures none { IfOk result (λ words. words.list ≡ []) }
{
    match fault {
        ErrorKind::InvalidData => Ok(Words {
            list: Items::new(alloc),
        }),
        _ => Err(AllocError),
    }
}

fn words_of(rt: &HostRuntime) -> Result<Words, AllocError> {
    match env::args(rt) {
        Ok(args) => after_name(args, rt.alloc()),
        Err(fault) => instead(fault.kind(), rt.alloc()),
    }
}

fn main(rt: HostRuntime) -> Ended {
    let Ok(words) = words_of(&rt) else {
        return Ended::without_words();
    };
    let mut source = StdSource::make(rt.reader());
    let mut sink = StdSink::make(io::writer(&rt));
    match route(&words) {
        Route::Plain | Route::Bad => Ended::of_plain(rt.alloc(), &words, &mut source, &mut sink),
        Route::Threads => Ended::of_run(
            &rt,
            rt.alloc(),
            &words,
            &mut source,
            &mut sink,
            &RealClock::make(&rt),
            &mut ModelRack::make(),
        ),
    }
}
