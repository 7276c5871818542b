// Why a weather source has no answer for a station and an index.
ghost use Rattle.std.specs.Prelude.{◌≡◌, [], ◌∷◌};
ghost use Rattle.refusals.specs.Refusals.{weather_refusal};

use crate::refused::Refused;
use crate::values::Values;

#[derive(Clone, Copy, Debug, PartialEq, Eq)]
pub enum WeatherFault {
    NoStation(u64, u64),
    NoIndex(u64, u64),
    Missing(u64, u64),
    // A figure of that day is outside its limits.
    Outside(u64, u64),
}

impl WeatherFault {
    // The station and the index that were asked.
    pub(crate) fn asked(&self) -> (u64, u64)
        ensures { (weather_refusal self.now).values ≡ result.0 ∷ (result.1 ∷ []) }
    {
        match self {
            WeatherFault::NoStation(station, index)
            | WeatherFault::NoIndex(station, index)
            | WeatherFault::Missing(station, index)
            | WeatherFault::Outside(station, index) => (*station, *index),
        }
    }
}

impl Refused for WeatherFault {
    ghost refusal = { weather_refusal };

    // A variant that carries values has no discriminant to cast, so its number stands here.
    fn number(&self) -> u32 {
        match self {
            WeatherFault::NoStation(_, _) => 31,
            WeatherFault::NoIndex(_, _) => 32,
            WeatherFault::Missing(_, _) => 33,
            WeatherFault::Outside(_, _) => 34,
        }
    }

    fn values(&self) -> Values {
        let (station, index) = self.asked();
        Values::Two(station, index)
    }
}
