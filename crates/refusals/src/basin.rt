// Why a call on a basin is refused, or a run stops.
ghost use Rattle.std.specs.Prelude.{◌≡◌};
ghost use Rattle.refusals.specs.Refusals.{basin_refusal, at_place, listed, weather_refusal};

use crate::refused::Refused;
use crate::values::Values;
use crate::weather::WeatherFault;

#[derive(Clone, Copy, Debug, PartialEq, Eq)]
pub enum BasinFault {
    // The tables' lengths disagree or are outside.
    Lengths,
    // A site's reach does not exist: the site.
    SiteReach(u64),
    // The next of a reach does not lie further on, or is none of the reaches: the reach.
    NextReach(u64),
    // The areas sum to too much.
    Areas,
    // The reach that a pour or a draw names does not exist.
    NoReach(u64),
    // The number of days or the amount is outside.
    Amount,
    // The source refuses a question: the site, or 1,024 and the reach, and the source's refusal whole.
    Weather(u64, WeatherFault),
    // A unit's water passes its limit: the site.
    UnitFull(u64),
    // The basin's water passes its limit.
    BasinFull,
    // A draw exceeds the stored water: the reach.
    Short(u64),
}

impl Refused for BasinFault {
    ghost refusal = { basin_refusal };

    // A variant that carries values has no discriminant to cast, so its number stands here.
    fn number(&self) -> u32 {
        match self {
            BasinFault::Lengths => 51,
            BasinFault::SiteReach(_) => 52,
            BasinFault::NextReach(_) => 53,
            BasinFault::Areas => 54,
            BasinFault::NoReach(_) => 55,
            BasinFault::Amount => 56,
            BasinFault::Weather(_, _) => 57,
            BasinFault::UnitFull(_) => 58,
            BasinFault::BasinFull => 59,
            BasinFault::Short(_) => 60,
        }
    }

    fn values(&self) -> Values {
        match self {
            BasinFault::Lengths | BasinFault::Areas | BasinFault::Amount | BasinFault::BasinFull =>
                Values::One(0),
            BasinFault::SiteReach(place)
            | BasinFault::NextReach(place)
            | BasinFault::NoReach(place)
            | BasinFault::UnitFull(place)
            | BasinFault::Short(place) => Values::One(*place),
            BasinFault::Weather(place, fault) => whole(*place, fault),
        }
    }
}

// A place, and a source's refusal there with its number and values.
fn whole(place: u64, fault: &WeatherFault) -> Values
    ensures { listed result ≡ (at_place place (weather_refusal fault.now)).values }
{
    let (station, index) = fault.asked();
    Values::Four(place, fault.number() as u64, station, index)
}
