//! The program's calls that start no thread: words go in, with a source and a sink, and a status comes out.
//!
//! The layer above finds by `route` which call serves the words, has `plain_top` serve `replay`, `forecast`, `check`, `law` and `audit`, and
//! takes a status for its exit code by `code`. The calls that run over threads stand on `command_of`, `read_input`, `of_input_end` and
//! `write_bulk`.
//!
//! ```text
//! status, words   the words, the command that they are, and the status of a call
//! number          a number among the words
//! input, cut      what is read, whole, and where a text with a journal is cut
//! output, law     what is written for a trace and for a law text
//! case            a trace with a journal, judged
//! bulk            the line of a bulk run
//! causes          which status a cause becomes
//! top             the calls
//! ```
//!
//! ```
//! use wbt_io::{MemSink, MemSource};
//! use wbt_num::Items;
//! use wbt_top_plain::{Route, Status, Words, code, plain_top, route};
//!
//! // A machine of one CPU with no device: its journal has what the timer published, and nothing else.
//! let list = vec![in alloc; String::from_str(alloc, "replay")?]?;
//! let words = Words { list: Items::from_vec(list) };
//! assert_eq!(rt; route(&words), Route::Plain);
//! let bytes = "cpus 1\navail 0 100000\n".as_bytes().to_vec(alloc)?;
//! let mut source = MemSource::make(bytes, 4096, Vec::new(alloc));
//! let mut sink = MemSink::make(alloc, 4096, 4096, Vec::new(alloc))?;
//! let status = plain_top(alloc, &words, &mut source, &mut sink);
//! assert_eq!(rt; (status, code(&status)), (Status::Good, 0));
//! let text = b"timer\nlimits 0 1 19995 9985 19995\ncpu 0\ncensus 0 0\ntotals 0 0\nend done\n";
//! assert_eq!(rt; sink.bytes(), text.as_slice());
//! ```
#![tactic(auto)]

mod bulk;
mod case;
mod causes;
mod cut;
mod input;
mod law;
mod number;
mod output;
mod status;
mod top;
mod words;

pub use bulk::write_bulk;
pub use causes::{InputEnd, of_input_end};
pub use input::read_input;
pub use status::{Command, Route, Status, Words};
pub use top::{code, plain_top, route};
pub use words::{MOST_EVERY, command_of};
