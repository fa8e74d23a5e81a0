//! The position ratio: how fast writers may go, from where a domain and a writeback context stand below their limits.
//!
//! A ratio is a number of 1024ths of a rate limit: about 1024 where both stand at their setpoints, and 0 from the domain's
//! hard limit on. Each call is its law as an exact formula, and takes no memory. The layers above use what was read of a
//! domain, `DomainRead`, and the ratio that `position` makes of it.
//!
//! ```
//! use wbt_num::Limits;
//! use wbt_position::{DomainRead, position, setpoint};
//!
//! // A domain stands at its setpoint, the middle of its freerun, 14990, and its hard limit; all its pages are the one context's.
//! let limits = Limits { thresh: 19995, bg: 9985, hard: 19995 };
//! assert_eq!(rt; setpoint(&limits), 17492);
//! let read = DomainRead { limits, dirty: 17492, wb_thresh: 19995 };
//! // At 25600 pages a second its writers may go on at 1023 1024ths of the rate limit; a page below the hard limit, at one.
//! assert_eq!(rt; position(&read, 17492, 25600), 1023);
//! assert_eq!(rt; position(&DomainRead { dirty: 19994, ..read }, 19994, 25600), 1);
//! ```
#![tactic(auto)]

mod curve;
pub mod laws;
mod odd;
mod ratio;

pub use curve::polynom;
pub use ratio::{DomainRead, position, setpoint};
