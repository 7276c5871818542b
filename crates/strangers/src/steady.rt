// A source of one station and ten days with the same weather.
ghost use Rattle.std.specs.Prelude.{◌≡◌, ◌+◌, ◌<◌, ◌≤◌, IfOk, IfErr};
ghost use Rattle.strangers.specs.SteadyWeather.{steady_means};

use refusals::weather::WeatherFault;
use weather::day::Day;
use weather::source::WeatherSource;

#[derive(Clone, Copy, Debug, PartialEq, Eq)]
pub struct Steady {
    // In micrometres a day; above a metre it is cut to a metre.
    pub rain: u32,
}

impl Steady {
    const STATIONS: u64 = 1;

    const DAYS: u64 = 10;

    // The date of an index, asked for a station.
    fn dated(&self, station: u64, index: u64) -> Result<u16, WeatherFault>
        ensures there { IfOk result (λ d. index < 10) }
        ensures date { IfOk result (λ d. d ≡ index + 1) }
        ensures past { IfErr result (λ e. 10 ≤ index) }
        ensures refusal { IfErr result (λ e. e ≡ WeatherFault.NoIndex station index) }
    {
        if index >= self.days() {
            return Err(WeatherFault::NoIndex(station, index));
        }
        Ok(index as u16 + 1)
    }
}

impl WeatherSource for Steady {
    ghost means = { steady_means };

    fn stations(&self) -> u64 {
        Steady::STATIONS
    }

    fn days(&self) -> u64 {
        Steady::DAYS
    }

    fn date(&self, index: u64) -> Result<u16, WeatherFault> {
        self.dated(0, index)
    }

    fn day(&self, station: u64, index: u64) -> Result<Day, WeatherFault> {
        if station >= self.stations() {
            return Err(WeatherFault::NoStation(station, index));
        }
        Ok(Day {
            date: self.dated(station, index)?,
            rain: self.rain.min(1_000_000),
            highest: 1_000,
            lowest: 400,
            demand: 0,
        })
    }
}
