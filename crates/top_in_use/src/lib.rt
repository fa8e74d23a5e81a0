//! Calls of the program over memory that run over threads, for tests of it: each makes one call, and says by no clause what comes of it.
//!
//! ```text
//! threads  the calls
//! clock    a clock that moves slowly, whoever rests by it, and one that jumps
//! traces   traces that several tests run
//! ```
#![tactic(auto)]

mod clock;
mod threads;
mod traces;

pub use clock::{SlowClock, jumping_clock};
pub use threads::{Input, call, calm};
pub use traces::{THREE_CPUS, TWO_PAGES};
