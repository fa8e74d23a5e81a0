//! Pauses, decisions by a rule, and decisions of checks.

mod check;
mod pauses;
mod rule;
