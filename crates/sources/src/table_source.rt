// A weather table as a source of weather.
ghost use Rattle.sources.specs.Table.{table_means};

use crate::records::{day_of, record_of};
use crate::table::WeatherTable;
use refusals::weather::WeatherFault;
use weather::day::Day;
use weather::source::WeatherSource;

// Stations, days and dates are the span's, each in one line; a trait of what has a span would take as many.
impl<'a> WeatherSource for WeatherTable<'a> {
    ghost means = { table_means };

    fn stations(&self) -> u64 {
        self.span.stations as u64
    }

    fn days(&self) -> u64 {
        self.span.days as u64
    }

    fn date(&self, index: u64) -> Result<u16, WeatherFault> {
        self.span.date(index)
    }

    fn day(&self, station: u64, index: u64) -> Result<Day, WeatherFault> {
        let date = self.span.place(station, index)?;
        let block = self.block(station as usize);
        day_of(record_of(block, index as usize), date, station, index)
    }
}
