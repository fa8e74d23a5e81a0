//! What tests show of single turns of a flusher in a run over threads.
//!
//! ```text
//! failing  a disk that fails: the batch is given back, and the eighth write that fails ends the turn
//! ages     a flusher of an ageing device: what it notices, and when it writes that
//! chunks   a flusher whose device has a chunk: two flights for two pages
//! places   one of a cyclic device: its second scan begins at the second page
//! weighed  a context of a strict device is written by its own background, one of another by its domain's
//! ```
#![tactic(auto)]

#[cfg(test)]
mod ages;
#[cfg(test)]
mod chunks;
#[cfg(test)]
mod failing;
#[cfg(test)]
mod places;
#[cfg(test)]
mod weighed;
