// The dates of a span, and what lies outside it.
ghost use Rattle.std.specs.Prelude.{◌≡◌, ℕ};
ghost use Rattle.refusals.specs.Refusals.{told, weather_refusal};
ghost use Rattle.sources.specs.Spans.{date_in, place_in};

use crate::calendar::date_at;
use crate::span::Span;
use refusals::weather::WeatherFault;

impl Span {
    // The day of the year of an index.
    pub(crate) fn date(&self, index: u64) -> Result<u16, WeatherFault>
        ensures { told (λ (n : ℕ). n) weather_refusal result ≡ date_in self.now index }
    {
        self.place(0, index)
    }

    // The day of the year of a station's index, where both exist.
    pub(crate) fn place(&self, station: u64, index: u64) -> Result<u16, WeatherFault>
        ensures { told (λ (n : ℕ). n) weather_refusal result ≡ place_in self.now station index }
    {
        if station >= self.stations as u64 {
            return Err(WeatherFault::NoStation(station, index));
        }
        if index >= self.days as u64 {
            return Err(WeatherFault::NoIndex(station, index));
        }
        Ok(date_at(self.first, index))
    }
}
