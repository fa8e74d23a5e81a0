//! The laws for a page in a browser: what `examples/page` calls, and nothing else.
//!
//! Each export `wbt_X` hands on the call `X` of `wbt_calls`, with its contract, as those of `wbt_c` do. The gate proves them for x86-64;
//! `tools/make-page` proves and compiles them for WebAssembly. The page puts structs into the module's memory, and keeps to what C does.
#![tactic(auto)]

mod bounds;
mod check;
mod limits;
mod parts;
mod pauses;
mod ratios;

pub use bounds::{wbt_bound, wbt_strict_context_bound};
pub use check::{wbt_decide, wbt_strict_decide};
pub use limits::{wbt_cgroup_thresholds, wbt_freerun, wbt_global_thresholds, wbt_setpoint};
pub use parts::{wbt_cgroup_available, wbt_context_background, wbt_context_threshold};
pub use pauses::{wbt_least_pause, wbt_longest_pause};
pub use ratios::{wbt_ratio, wbt_strict_ratio};
