// How a normal year is made.
ghost use Rattle.sources.specs.NormalYears.{YearMade};

use crate::normal_year::NormalYear;
use crate::span::Span;
use fixed::limits::natural;
use refusals::normal_year::NormalYearSetting;
use weather::day::Day;

impl NormalYear {
    // A normal year of 36,500 days from a day of the year on, or the first setting that is outside.
    pub fn new(
        months: [Day; 12],
        stations: i64,
        first: i64,
    ) -> Result<NormalYear, NormalYearSetting>
        ensures { YearMade months stations first result }
    {
        let stations = natural(stations, 1, 64).ok_or(NormalYearSetting::Stations)?;
        let first = natural(first, 1, 365).ok_or(NormalYearSetting::FirstDay)?;
        let span = Span {
            stations: stations as u8,
            days: 36_500,
            first: first as u16,
        };
        Ok(NormalYear { months, span })
    }
}
