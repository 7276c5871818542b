// How a day of weather is made, and its mean temperature.
ghost use Rattle.std.specs.Prelude.{◌≡◌, pos, negsuc, ◌≤ℤ◌};
ghost use Rattle.weather.specs.Days.{DayMade, mean_of};

use crate::day::Day;
use fixed::limits::{integer, natural};
use refusals::day::DayFault;

impl Day {
    // A day of these figures, or the first of them that is outside its limits.
    pub fn new(
        date: i64,
        rain: i64,
        highest: i64,
        lowest: i64,
        demand: i64,
    ) -> Result<Day, DayFault>
        ensures { DayMade date rain highest lowest demand result }
    {
        let date = natural(date, 1, 365).ok_or(DayFault::DayOfYear)?;
        let rain = natural(rain, 0, 1_000_000).ok_or(DayFault::Rain)?;
        let highest = integer(highest, -6000, 6000).ok_or(DayFault::Highest)?;
        // A lowest above the highest is a fault of the lowest.
        let lowest = integer(lowest, -6000, highest).ok_or(DayFault::Lowest)?;
        let demand = natural(demand, 0, 50_000).ok_or(DayFault::Demand)?;
        Ok(Day {
            date: date as u16,
            rain,
            highest,
            lowest,
            demand,
        })
    }

    // Half the sum of highest and lowest, cut toward zero.
    pub fn mean(&self) -> i32
        ensures value { result ≡ mean_of self.now }
        ensures bound { (result ≤ℤ pos 6000) × (negsuc 5999 ≤ℤ result) }
    {
        (self.highest + self.lowest) / 2
    }
}
