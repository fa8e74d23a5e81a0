//! What the outside gives, takes and says: sources and sinks of bytes, disks and the racks that lend them, each of which
//! counts its faults, and clocks and gates, whose answers stand in a relation that no other code can make.
//!
//! The layers above read a whole input with `read_all` and write a whole text with `write_all`, from any `Source` and to
//! any `Sink`; they write batches of pages to a `Disk` that a `Rack` has lent and takes back, take moments from a `Clock` by
//! `told_moment`, and ask a `Gate` before each step.
//!
//! In memory: `MemSource`, `MemSink`, `ModelDisk` and `ModelRack`, `FaultyDisk` and `FaultyRack`, which fail at the calls that
//! they are told, `HandClock`, `StillClock` and `JumpClock`, `FreeGate` and `HaltGate`. Over the machine: `StdSource` and
//! `StdSink` stand over a reader and a writer, `RealClock` over its clock.
//!
//! ```
//! use wbt_io::{MemSource, ReadEnd, read_all};
//!
//! // A source in memory gives at most two bytes a call, and fails at no call. `read_all` takes at most 8 bytes.
//! let mut source = MemSource::make(b"cpus 4\n".to_vec(alloc)?, 2, Vec::new(alloc));
//! match read_all(alloc, &mut source, 8) {
//!     Ok(text) => assert_eq!(rt; text.as_slice(), b"cpus 4\n".as_slice()),
//!     Err(ReadEnd::TooLong) => println!(rt; "more than 8 bytes")?,
//!     Err(_) => println!(rt; "a failed read, or no memory")?,
//! }
//! ```
#![tactic(auto)]

mod calls;
mod clock;
mod disk;
mod failed;
mod faulty_disk;
mod faulty_rack;
mod gate;
mod jump_clock;
mod mem_sink;
mod mem_source;
mod model_disk;
mod model_rack;
mod rack;
mod real_clock;
mod sink;
mod source;
mod std_sink;
mod std_source;

pub use clock::{Clock, HandClock, StillClock, told_moment};
pub use disk::Disk;
pub use failed::Failed;
pub use faulty_disk::FaultyDisk;
pub use faulty_rack::FaultyRack;
pub use gate::{FreeGate, Gate, HaltGate};
pub use jump_clock::JumpClock;
pub use mem_sink::MemSink;
pub use mem_source::MemSource;
pub use model_disk::{ModelDisk, done_at};
pub use model_rack::ModelRack;
pub use rack::Rack;
pub use real_clock::RealClock;
pub use sink::{Sink, write_all};
pub use source::{ReadEnd, Source, read_all};
pub use std_sink::StdSink;
pub use std_source::StdSource;
pub use wbt_num::NoMemory;
