//! Texts that are read line by line: how a line is cut, numbers and the spaces between them, and what a whole text tells.
//!
//! The layers above cut lines with `cut`, read fields with `front_of` and `numbers`, and read a whole text with
//! `read_lines`, each by a `Reader` of its own. What a text tells, they say as a `Format` of `specs/Reading.antt`, of
//! which `proofs/Leading.antt` and `proofs/Deciding.antt` know that each text has one answer.
//!
//! ```
//! use wbt_text::{cut, front_of, numbers};
//!
//! let text = b"device 0 25600 0 100\nflusher 0 0 1\n";
//! // The first line, and what follows its newline; then the line's words, and the text of its numbers.
//! let Some((line, _rest)) = cut(text, b'\n') else { return Ok(()); };
//! let (word, fields) = front_of(line);
//! assert_eq!(rt; word, b"device ".as_slice());
//! // None where a text isn't numbers with one space between two of them.
//! if let Some(found) = numbers(alloc, fields)? {
//!     assert_eq!(rt; found.as_slice(), [0, 25600, 0, 100].as_slice());
//! }
//! ```
#![tactic(auto)]

mod digits;
mod lines;
mod parts;

pub use digits::{MOST_DIGITS, numbers};
pub use lines::{Reader, Verdict, read_lines};
pub use parts::{cut, front_of};
