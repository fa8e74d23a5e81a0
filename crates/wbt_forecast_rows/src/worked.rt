//! Worked forecasts: their texts, in full. Each is a theorem, which the function's contract carries.

ghost use Rattle.wbt_forecast_rows.specs.Worked.{TwoPagesForecast, TwoTicksForecast};

/// The forecast, by intervals of a thousand ticks, of the trace that writes two pages: they are written, claimed and completed in the
/// first interval.
pub fn two_pages_forecast()
    ensures { TwoPagesForecast }
{}

/// The forecast of that trace, tick by tick: at tick 1 the pages are written and claimed, and at tick 2 they are completed one after the
/// other, so that at most one is under writeback after any step then.
pub fn two_ticks_forecast()
    ensures { TwoTicksForecast }
{}
