//! The rows of a forecast: what an ordered run does in each interval of so many ticks, the text that tells it, and the tallies from which
//! a row is made while the run goes on.
//!
//! A forecast is defined for any run that is given as its state after each number of moves (`specs/Forecast.antt`). The layers above count
//! steps, entries and checks in with an `Interval`, make its row when the clock has left it or the run has ended, and write the row's text.
//! `laws` says that such a row is that of the definition, and that numbers of intervals add up.
//!
//! ```
//! use wbt_forecast_rows::{Interval, text};
//!
//! // A machine has made some steps since the last interval, number 6, in which CPU 0 told some entries and checks.
//! interval.count_steps(&trace, steps);
//! interval.count_entries(&trace, entries);
//! interval.count_checks(checks);
//! let row = interval.row(alloc, 6, bases, machine.domains.as_slice(), machine.contexts.as_slice())?;
//! text::put_row(&row, &mut lines)?;
//! interval.clear();
//! ```
#![tactic(auto)]

mod contexts;
mod domains;
pub mod forecast;
mod fresh;
pub mod interval;
pub mod laws;
mod made;
mod pages;
pub mod rows;
pub mod tally;
mod tasks;
pub mod text;
pub mod worked;

pub use forecast::{Forecast, Totals};
pub use interval::Interval;
pub use rows::{ContextRow, DomainRow, IntervalRow, TaskRow};
