// A store of water, by what it means.
ghost use Rattle.std.specs.Prelude.{ℕ, ◌≤◌};
ghost use Rattle.stores.specs.Meaning.{Turned, Told};
ghost use Rattle.stores.specs.declared.flows.Flows.{Flows};
ghost use Rattle.weather.specs.declared.day.Day.{Day};

use crate::flows::Flows;
use refusals::store::Overfull;
use weather::day::Day;

// The most water that a store takes, in micrometres.
pub const LIMIT: u32 = 100_000_000;

pub trait Store {
    // The water that the store holds.
    ghost water: { Self → ℕ };

    // The part of it that roots reach.
    ghost root: { Self → ℕ };

    // How the store divides its water: before, inflow, demand, day, after, answer. A store may say nothing here.
    ghost turns: { Self → ℕ → ℕ → Day → Self → Flows → Type 0 } = { λ _ _ _ _ _ _. Unit {0} };

    // One day, with the water that comes in and the evaporative demand.
    fn turn(&mut self, inflow: u32, demand: u32, day: &Day) -> Result<Flows, Overfull>
        ensures { Turned water turns self.old inflow demand day.now self.new result };

    fn water(&self) -> Result<u32, Overfull>
        ensures { Told (water self.now) (water self.now) result };

    fn root_water(&self) -> Result<u32, Overfull>
        ensures { Told (water self.now) (root self.now) result };

    ghost root_within: { (s : Self) → root s ≤ water s };
}
