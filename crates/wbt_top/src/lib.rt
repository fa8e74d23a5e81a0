//! The program's calls that run over threads, and the end of its process. Its other calls are those of `wbt_top_plain`, and the program
//! over both is `wbsim_top`.
//!
//! The layer above finds by `route` of `wbt_top_plain` which call serves the words, and has `run_top` serve `run` and `bulk`. A program's
//! `main` makes an `Ended` by one of these calls or by `plain_top`, and returns it: that prints the sentence of its status and exits with
//! its code.
//!
//! ```
//! use wbt_io::{FreeGate, MemSink, MemSource, ModelRack, RealClock};
//! use wbt_num::Items;
//! use wbt_top::run_top;
//! use wbt_top_plain::{Status, Words};
//!
//! // A bulk run of four pages reads nothing, and writes one line.
//! let list = vec![in alloc; String::from_str(alloc, "bulk")?, String::from_str(alloc, "4")?]?;
//! let words = Words { list: Items::from_vec(list) };
//! let mut source = MemSource::make(Vec::new(alloc), 4096, Vec::new(alloc));
//! let mut sink = MemSink::make(alloc, 4096, 4096, Vec::new(alloc))?;
//! let clock = RealClock::make(&rt);
//! let status = run_top(&rt, alloc, &words, &mut source, &mut sink, &clock, &FreeGate, &mut ModelRack::make());
//! assert_eq!(rt; status, Status::Good);
//! assert_eq!(rt; sink.bytes(), b"bulk 4 dirtied 4 cleaned 4 left 0\n".as_slice());
//! ```
#![tactic(auto)]

mod end;
mod ran;
mod threads;

pub use end::Ended;
pub use threads::run_top;
