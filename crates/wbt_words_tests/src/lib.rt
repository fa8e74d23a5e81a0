//! What tests show of the words that threads share besides a throttle's: queues, newest estimates and proportions.
//!
//! ```text
//! queue       each device has its own order; what two threads put, two threads take, each number once
//! published   an estimate is read whole; who may publish; two threads read beside one that publishes
//! fraction    fractions are halved with each period; totals; two threads add and read while a period begins
//! ```
#![tactic(auto)]

#[cfg(test)]
mod fraction;
#[cfg(test)]
mod published;
#[cfg(test)]
mod queue;
