//! Forecasts: the ordered run of a trace, told by intervals of so many ticks as it goes.
#![tactic(auto)]

mod counting;
mod fault;
mod foretell;
mod further;
mod teller;
mod ticks;

pub use fault::ForecastFault;
pub use foretell::forecast;
