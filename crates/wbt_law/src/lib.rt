//! One decision from a text: what was read of a machine goes in, the position ratios and the decision of a check come out.
//!
//! The layer above reads a law text with `read_law`, and prints what `law_text` makes of it.
//!
//! ```
//! use wbt_law::{law_text, read_law};
//!
//! // `text` is what examples/decision.law holds: a writer that dirtied 250 pages is checked, and its domain stands at its setpoint.
//! match read_law(alloc, text) {
//!     Ok(law) => {
//!         // It goes on after 8 ticks, with 250 pages.
//!         let answer = law_text(alloc, &law)?;
//!         assert_eq!(rt; answer.as_bytes(), b"ratio 1023\ndecision go 8 250\ntask 0 250 5008\n".as_slice());
//!     }
//!     // The first line at fault, and why.
//!     Err(fault) => println!(rt; "{fault:?}")?,
//! }
//! ```
#![tactic(auto)]

mod accept;
mod input;
mod place;
mod read;
mod row;
mod text;

pub use input::LawInput;
pub use read::{law_has_one_answer, read_law};
pub use text::law_text;
