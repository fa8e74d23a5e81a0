//! Why a forecast is cut off.

use std::alloc::AllocError;
use wbt_io::Failed;

/// Why a forecast was cut off. The sink holds what was written before.
#[derive(Clone, Copy, Debug, PartialEq, Eq)]
pub enum ForecastFault {
    /// Memory was refused.
    NoMemory,
    /// The sink failed.
    WriteFault,
}

impl From<AllocError> for ForecastFault {
    ghost use Rattle.std.specs.Prelude.{◌≡◌};
    ghost use Rattle.wbt_forecast.specs.declared.fault.ForecastFault.TheVariants.{NoMemory};

    ghost from_gives = { λ _ fault. fault ≡ NoMemory };

    fn from(_error: AllocError) -> ForecastFault {
        ForecastFault::NoMemory
    }
}

impl From<Failed> for ForecastFault {
    ghost use Rattle.std.specs.Prelude.{◌≡◌};
    ghost use Rattle.wbt_forecast.specs.declared.fault.ForecastFault.TheVariants.{WriteFault};

    ghost from_gives = { λ _ fault. fault ≡ WriteFault };

    fn from(_failed: Failed) -> ForecastFault {
        ForecastFault::WriteFault
    }
}
