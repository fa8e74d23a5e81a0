//! The sums of a run's journal, as definitions and lemmas: what was completed was handed to disks, and where no page is left each dirtying
//! was completed or absorbed (`AddsUp`).
//!
//! ```text
//! ghost use Rattle.wbt_top_sums.specs.Sums.{AddsUp};
//!
//! // Of the journal of a run, as `wbt_top::run_top` says in its clauses.
//! ensures sums { AddsUp journal.now }
//! ```
//!
//! It has no code.
#![tactic(auto)]
