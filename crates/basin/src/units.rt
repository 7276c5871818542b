// The units of a basin over a day.
ghost use Rattle.std.specs.Prelude.{◌≡◌, ℕ, ◌+◌, ◌<◌, ◌≤◌, length, slice_index_or};
ghost use Rattle.stores.specs.Meaning.{limit};
ghost use Rattle.weather.specs.declared.day.Day.{Day};
ghost use Rattle.network.specs.Records.{unit0};
ghost use Rattle.basin.specs.Loops.{TurnedIn, rain_in};

use network::flows::UnitFlow;
use stores::flows::Flows;
use stores::store::Store;
use weather::day::Day;

// A unit's record of a day: its rain, and what left its store.
fn unit_flow(rain: u32, left: Flows) -> UnitFlow
    ensures { result ≡ record { rain = rain; side = left.side; vapour = left.vapour; deep = left.deep } }
{
    UnitFlow {
        rain: u64::from(rain),
        side: u64::from(left.side),
        vapour: u64::from(left.vapour),
        deep: u64::from(left.deep),
    }
}

// Each unit turned once, with the rain and the demand of its weather.
pub fn turn_units<S: Store + Copy>(units: &mut [S], weather: &[Day], flows: &mut [UnitFlow])
    requires long { length flows.old ≡ length units.old }
    requires seen { length weather.now ≡ length units.old }
    requires room { (i : ℕ) (z : S) → i < length units.old → S.Store.water (slice_index_or units.old i z) + rain_in weather.now i ≤ limit }
    ensures { (i : ℕ) (z : S) (w : Day) → i < length units.old → TurnedIn S.Store.water S.Store.turns (slice_index_or weather.now i w) (slice_index_or units.old i z) (slice_index_or units.new i z) (slice_index_or flows.new i unit0) }
{
    // By index: two lists are written in step, and a proof follows what is written so.
    for (i, day) in weather.iter().enumerate() {
        // The limits were tested before anything turned.
        let left = units[i].turn(day.rain, day.demand, day).unwrap();
        flows[i] = unit_flow(day.rain, left);
    }
}
