// A source of weather, by what it means.
ghost use Rattle.std.specs.Prelude.{◌≡◌, ℕ};
ghost use Rattle.refusals.specs.Refusals.{told, weather_refusal};
ghost use Rattle.weather.specs.Days.{figures};
ghost use Rattle.weather.specs.Meaning.{Meaning, asked, dated};

use crate::day::Day;
use refusals::weather::WeatherFault;

pub trait WeatherSource {
    ghost means: { Self → Meaning };

    fn stations(&self) -> u64
        ensures { result ≡ (means self.now).stations };

    fn days(&self) -> u64
        ensures { result ≡ (means self.now).days };

    // The day of the year of an index.
    fn date(&self, index: u64) -> Result<u16, WeatherFault>
        ensures { told (λ (n : ℕ). n) weather_refusal result ≡ dated (means self.now) index };

    // The weather of a station at an index.
    fn day(&self, station: u64, index: u64) -> Result<Day, WeatherFault>
        ensures { told figures weather_refusal result ≡ asked (means self.now) station index };
}
