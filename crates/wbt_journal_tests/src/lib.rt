//! What tests show of journals and their texts.
//!
//! ```text
//! digits         numbers in decimal
//! disks          when a flusher's disk is done
//! journals       the texts of small journals, a text of several pieces, and a sink that fails
//! journal_reads  what is read is printed alike; the line that is named in each refused text
//! texts          a text with every kind of line
//! ```
#![tactic(auto)]

#[cfg(test)]
mod digits;
#[cfg(test)]
mod disks;
#[cfg(test)]
mod journal_reads;
#[cfg(test)]
mod journals;
#[cfg(test)]
mod texts;
