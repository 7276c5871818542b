// The records of a weather table, which are parts of its bytes.
ghost use Rattle.std.specs.Prelude.{◌≡◌, ◌+◌, ◌*◌, ◌<◌, ◌≤◌, length};
ghost use Rattle.refusals.specs.Refusals.{told, weather_refusal};
ghost use Rattle.weather.specs.Days.{figures};
ghost use Rattle.weather.specs.Meaning.{seen};
ghost use Rattle.sources.specs.Records.{block_of, record_of, sky_at};

use crate::bytes::{half, word};
use crate::table::WeatherTable;
use refusals::weather::WeatherFault;
use weather::day::Day;

impl<'a> WeatherTable<'a> {
    // The block of a station: its records in the order of the days.
    pub(crate) fn block(&self, station: usize) -> &'a [u8]
        requires { station < self.now.span.stations }
        ensures value { result.now ≡ block_of self.now.bytes.now self.now.span.days station }
        ensures len { length result.now ≡ 12 * self.now.span.days }
    {
        let size = 12 * self.span.days as usize;
        let start = 20 + size * station;
        &self.bytes[start..start + size]
    }
}

// The record of an index in a block.
pub(crate) fn record_of(block: &[u8], index: usize) -> &[u8]
    requires { 12 * index + 12 ≤ length block.now }
    ensures value { result.now ≡ record_of block.now index }
    ensures len { length result.now ≡ 12 }
{
    let start = 12 * index;
    &block[start..start + 12]
}

// The day of weather that a record holds, of a date, for a station and an index.
pub(crate) fn day_of(bytes: &[u8], date: u16, station: u64, index: u64) -> Result<Day, WeatherFault>
    requires { length bytes.now ≡ 12 }
    ensures { told figures weather_refusal result ≡ seen station index (sky_at date bytes.now 0) }
{
    let rain = word(bytes, 0);
    if rain == u32::MAX {
        return Err(WeatherFault::Missing(station, index));
    }
    let highest = half(bytes, 4);
    let lowest = half(bytes, 6);
    let demand = word(bytes, 8);
    Day::new(
        date as i64,
        rain as i64,
        highest as i64,
        lowest as i64,
        demand as i64,
    )
    .map_err(|_| WeatherFault::Outside(station, index))
}
