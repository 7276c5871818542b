// A normal year as a source of weather.
ghost use Rattle.std.specs.Prelude.{◌≡◌, ◌≤◌};
ghost use Rattle.weather.specs.Days.{figures};
ghost use Rattle.sources.specs.NormalYears.{on_date, year_means};

use crate::calendar::month_of;
use crate::normal_year::NormalYear;
use refusals::weather::WeatherFault;
use weather::day::Day;
use weather::source::WeatherSource;

// The weather of a day, as of another date. A literal of a struct with an invariant names all fields: no `..day`.
fn on_date(date: u16, mut day: Day) -> Day
    requires first { 1 ≤ date }
    requires last { date ≤ 365 }
    ensures { figures result ≡ on_date date (figures day) }
{
    day.date = date;
    day
}

// Stations, days and dates are the span's, each in one line; a trait of what has a span would take as many.
impl WeatherSource for NormalYear {
    ghost means = { year_means };

    fn stations(&self) -> u64 {
        self.span.stations as u64
    }

    fn days(&self) -> u64 {
        self.span.days as u64
    }

    fn date(&self, index: u64) -> Result<u16, WeatherFault> {
        self.span.date(index)
    }

    fn day(&self, station: u64, index: u64) -> Result<Day, WeatherFault> {
        let date = self.span.place(station, index)?;
        Ok(on_date(date, self.months[month_of(date)]))
    }
}
