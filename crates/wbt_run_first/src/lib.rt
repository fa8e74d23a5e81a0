//! What a run over threads has before its first turn, as definitions: each CPU's side with its disks (`Lent`), its part of the seats
//! (`Seated`) and its voice (`Voiced`); and what it means that disks were given back (`Back`).
//!
//! ```text
//! ghost use Rattle.std.specs.Prelude.{◌<◌, ◌^◌, IfOk};
//! ghost use Rattle.wbt_run_first.specs.Lent.{AreFirstSides};
//! ghost use Rattle.wbt_rules.specs.Thresholds.{global_at};
//!
//! // The sides that a rack's disks are lent to, as a caller of `wbt_run_lend::make_sides` names them in a clause.
//! ensures made { IfOk result (λ sides. (now : ℕ) → first.now.thresh ≡ (global_at trace.now now).thresh → AreFirstSides R.D.written R.D.faults trace.now now sides.items) }
//! ```
//!
//! It has no code.
#![tactic(auto)]
