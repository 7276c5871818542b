// The questions of a day: the sites in order, then the reaches.
ghost use Rattle.std.specs.Prelude.{◌≡◌, ℕ, ◌≤◌, length};
ghost use Rattle.weather.specs.declared.day.Day.{Day};
ghost use Rattle.basin.specs.Loops.{Counted, PlacesAnswered, readings_most};

use network::reach::Reach;
use network::site::Site;
use refusals::basin::BasinFault;
use weather::day::Day;
use weather::source::WeatherSource;

// A place with a station, of whose weather something is kept.
pub trait Gauged {
    type Kept: Copy;

    // The number of the first place.
    ghost FIRST: { ℕ };

    const FIRST: u64;

    ghost gauge: { Self → ℕ };

    ghost kept: { Day → Self.Kept };

    fn station(&self) -> u8
        ensures { result ≡ gauge self.now };

    fn keep(day: Day) -> Self::Kept
        ensures { result ≡ kept day };
}

// All of it at a site.
impl Gauged for Site {
    type Kept = Day;

    ghost FIRST = { 0 };

    const FIRST: u64 = 0;

    ghost gauge = { λ s. s.station };

    ghost kept = { λ w. w };

    fn station(&self) -> u8 {
        self.station
    }

    fn keep(day: Day) -> Day {
        day
    }
}

// The evaporative demand at a reach.
impl Gauged for Reach {
    type Kept = u32;

    ghost FIRST = { 1024 };

    const FIRST: u64 = 1024;

    ghost gauge = { λ r. r.channel.station };

    ghost kept = { λ w. w.demand };

    fn station(&self) -> u8 {
        self.channel.station
    }

    fn keep(day: Day) -> u32 {
        day.demand
    }
}

// Asks for the weather of each place, and keeps what is kept of it.
pub fn ask<W: WeatherSource, P: Gauged>(
    source: &W,
    index: u64,
    places: &[P],
    list: &mut [P::Kept],
    readings: &mut u64,
) -> Result<(), BasinFault>
    requires numbered { P.FIRST ≤ 1024 }
    requires few { length places.now ≤ 1024 }
    requires long { length list.old ≡ length places.now }
    requires read { readings.old ≤ readings_most }
    ensures asked { PlacesAnswered P.gauge P.kept P.FIRST (W.WeatherSource.means source.now) index places.now list.new result }
    ensures counted { Counted (length places.now) readings.old readings.new result }
{
    // The index gives a refusal its place, so it serves for the list too.
    for (i, place) in places.iter().enumerate() {
        *readings += 1;
        let number = P::FIRST + i as u64;
        let day = source
            .day(place.station() as u64, index)
            .map_err(|fault| BasinFault::Weather(number, fault))?;
        list[i] = P::keep(day);
    }
    Ok(())
}
