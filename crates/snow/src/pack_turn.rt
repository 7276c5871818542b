// How a pack is made, and its day.
ghost use Rattle.std.specs.Prelude.{◌≡◌, ◌+◌, ◌≤◌, pos, negsuc, ◌≤ℤ◌};
ghost use Rattle.snow.specs.Pack.{PackMade, PackTurn, passed_of, warmed_to, heat_at, snow_of, melt_at};

use crate::pack::Pack;
use fixed::limits::{integer, natural};
use refusals::snowpack::SnowpackSetting;
use stores::store::LIMIT;
use weather::day::Day;

// What a pack hands on in a day: to the store below, and to the air.
#[derive(Clone, Copy, Debug, PartialEq, Eq)]
pub(crate) struct Passed {
    pub below: u32,
    pub vapour: u32,
}

impl Pack {
    // A pack of these settings, or the first of them that is outside its limits.
    pub fn new(
        water: i64,
        temperature: i64,
        snowfall: i64,
        melting: i64,
        lag: i64,
        factor: i64,
    ) -> Result<Pack, SnowpackSetting>
        ensures { PackMade water temperature snowfall melting lag factor result }
    {
        let water = natural(water, 0, LIMIT).ok_or(SnowpackSetting::SnowWater)?;
        let temperature = integer(temperature, -6000, 6000).ok_or(
            SnowpackSetting::PackTemperature,
        )?;
        let snowfall = integer(snowfall, -500, 500).ok_or(SnowpackSetting::SnowfallTemperature)?;
        let melting = integer(melting, -500, 500).ok_or(SnowpackSetting::MeltTemperature)?;
        let lag = natural(lag, 0, 1000).ok_or(SnowpackSetting::Lag)?;
        let factor = natural(factor, 0, 20_000).ok_or(SnowpackSetting::MeltFactor)?;
        Ok(Pack {
            water,
            temperature,
            snowfall,
            melting,
            lag,
            factor,
        })
    }

    // The pack's temperature after the day.
    fn warmed(&self, day: &Day) -> i32
        ensures value { result ≡ warmed_to self.now day.now }
        ensures most { result ≤ℤ pos 6000 }
        ensures least { negsuc 5999 ≤ℤ result }
    {
        let mean = day.mean();
        let kept = (1000 - self.lag) as i32 * self.temperature;
        let new = self.lag as i32 * mean;
        (kept + new) / 1000
    }

    // How far the pack is above melting on the day.
    fn heat(&self, day: &Day) -> i32
        ensures value { result ≡ heat_at self.now self.now.temperature day.now }
        ensures bound { result ≤ℤ pos 13000 }
    {
        self.temperature + day.highest - 2 * self.melting
    }

    // What melts of so much lying snow.
    #[tactic(auto, unfolding(crate::specs::Pack::melt_at))]
    fn melted(&self, lying: u32, day: &Day) -> u32
        ensures value { result ≡ melt_at self.now lying self.now.temperature day.now }
        ensures bound { result ≤ lying }
    {
        let heat = self.heat(day);
        if heat <= 0 || day.highest <= 0 {
            return 0;
        }
        lying.min(self.factor * heat as u32 / 200)
    }

    // What of an inflow joins the pack.
    #[tactic(auto, unfolding(crate::specs::Pack::snow_of))]
    fn snowed(&self, inflow: u32, day: &Day) -> u32
        ensures value { result ≡ snow_of self.now inflow day.now }
        ensures bound { result ≤ inflow }
    {
        if day.mean() <= self.snowfall {
            inflow
        } else {
            0
        }
    }

    // One day of the pack.
    #[tactic(auto, unfolding(crate::specs::Pack::melt_at))]
    pub(crate) fn turn(&mut self, inflow: u32, demand: u32, day: &Day) -> Passed
        requires { self.old.water + inflow ≤ 100000000 }
        ensures turned { PackTurn self.old inflow demand day.now self.new }
        ensures passed { result ≡ passed_of self.old inflow demand day.now }
        ensures balance { self.new.water + result.below + result.vapour ≡ self.old.water + inflow }
        ensures drunk { result.vapour ≤ demand }
    {
        let snow = self.snowed(inflow, day);
        let lying = self.water + snow;
        // The new temperature decides what melts.
        self.temperature = self.warmed(day);
        let melt = self.melted(lying, day);
        let left = lying - melt;
        let vapour = left.min(demand);
        self.water = left - vapour;
        Passed {
            below: inflow - snow + melt,
            vapour,
        }
    }
}
