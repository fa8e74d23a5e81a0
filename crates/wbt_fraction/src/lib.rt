//! Proportions and written totals that threads share without a lock.
//!
//! Each domain has a word, with its period in the high 24 bits and its events in the low 40, and so has each context's
//! part of it. Parts age when they are touched. Additions, reads and new periods are single atomic steps on these words, and
//! no call waits:
//!
//! ```text
//! add          load domain, load part, exchange it where it is behind, add to the part, add to the domain
//! read         load domain, load part, load domain again       Again where a period began between
//! new_period   load domain, exchange it                        Again where the word changed between
//! ```
//!
//! A seat notes each step with the word that it found. Between any two steps of any threads all steps of all seats stand in
//! one history. Each has its place in it, the number of steps before it by anyone; it found the word that the last step there
//! had left; and a new step comes after all that were made. Each word is the number that the history makes where everything is
//! halved at once in each period: the laws say so in the words of `wbt_flex`. What a call tells is a trail: the steps that its
//! seat made, in their places, and all that anyone had made up to the last of them. A split gives the new seat what the old
//! one knows. A seat has stakes, 2^32 in all, and who has them all has all steps, each in its place; and rooms, so that no
//! addition ever reaches the period's bits. The written totals are told in the same way.
//!
//! ```
//! use wbt_flex::Fraction;
//! use wbt_fraction::Shares;
//!
//! // One domain with one context. `other` is for another thread, which completes ten pages of the context.
//! let (shares, mut seat) = Shares::make(alloc, 1, &[0])?;
//! let mut other = shares.split(alloc, &mut seat)?;
//! assert_eq!(rt; shares.add(&mut other, 0, 0, 10), Ok(()));
//! // A new period halves all events; Ok(false) would say that none began, Err(Again) that another thread came between.
//! assert_eq!(rt; shares.new_period(&mut seat, 0, 1), Ok(true));
//! assert_eq!(rt; shares.read(&mut seat, 0, 0), Ok(Fraction { period: 1, num: 5, den: 5 }));
//! shares.join(&mut seat, other);
//! ```
#![tactic(auto)]

pub mod domain;
pub mod laws;
pub mod several;
pub mod shares;
pub mod total;

pub use domain::note::Note;
pub use domain::words::Again;
pub use shares::{ShareSeat, Shares};
pub use total::note::TotalNote;
