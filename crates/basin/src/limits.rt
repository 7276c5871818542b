// The water of a basin, and the limits that it keeps to.
ghost use Rattle.std.specs.Prelude.{◌≡◌, ◌≤◌, length};
ghost use Rattle.basin.specs.Limits.{reach_water};
ghost use Rattle.basin.specs.Tables.{sites_of, state_of};
ghost use Rattle.basin.specs.Loops.{AtMost, Held, UnitsHeld, area_sums_most, rain_fallen, rain_in, stored_most};

use crate::tables::Tables;
use network::reach::Reach;
use network::site::Site;
use refusals::basin::BasinFault;
use stores::store::{LIMIT, Store};
use weather::day::Day;

// The most water that a basin holds, in millilitres.
const MOST: u128 = 1_000_000_000_000_000_000;

// The rain of the unit at a place; a place beyond the list has none.
fn rain_in(weather: &[Day], i: usize) -> u32
    ensures { result ≡ rain_in weather.now i }
{
    weather.get(i).map_or(0, |day| day.rain)
}

// What the units hold, in millilitres, or the first that passes its limit with its rain.
fn unit_water<S: Store>(sites: &[Site], units: &[S], weather: &[Day]) -> Result<u128, BasinFault>
    requires long { length sites.now ≡ length units.now }
    requires few { length units.now ≤ 1024 }
    ensures held { UnitsHeld S.Store.water (rain_in weather.now) sites.now units.now result }
    ensures small { AtMost area_sums_most result }
{
    let mut sum: u128 = 0;
    // Weather by index: before the first day there is none, and the list is empty.
    for (i, (site, unit)) in sites.iter().zip(units).enumerate() {
        let full = BasinFault::UnitFull(i as u64);
        let water = unit.water().map_err(|_| full)?;
        if rain_in(weather, i) > LIMIT - water {
            return Err(full);
        }
        sum += u128::from(site.area) * u128::from(water);
    }
    Ok(sum)
}

// What the reaches hold, in millilitres.
// Here and in the other sums a list's length bounds the sum, so each asks for it.
fn stored_water(reaches: &[Reach]) -> u128
    requires { length reaches.now ≤ 256 }
    ensures value { result ≡ reach_water reaches.now }
    ensures small { result ≤ stored_most }
{
    reaches.iter().map(|reach| u128::from(reach.stored)).sum()
}

// The rain of all units, in millilitres.
pub fn rain_fallen(sites: &[Site], weather: &[Day]) -> u128
    requires long { length weather.now ≡ length sites.now }
    requires few { length sites.now ≤ 1024 }
    ensures value { result ≡ rain_fallen sites.now weather.now }
    ensures small { result ≤ area_sums_most }
{
    sites
        .iter()
        .zip(weather)
        .map(|(site, day)| u128::from(site.area) * u128::from(day.rain))
        .sum()
}

impl<S: Store> Tables<S> {
    // The basin's water, or the first limit that it passes with the rain of each unit and with so much added.
    pub fn check_limits(&self, weather: &[Day], added: u128) -> Result<u128, BasinFault>
        requires long { length self.now.sites.items ≡ length self.now.units.items }
        requires few { length self.now.units.items ≤ 1024 }
        requires few_reaches { length self.now.reaches.items ≤ 256 }
        requires added { added ≤ area_sums_most }
        ensures { Held S.Store.water (rain_in weather.now) added (sites_of self.now) (state_of self.now) result }
    {
        let water = unit_water(&self.sites, &self.units, weather)? + stored_water(&self.reaches);
        if water + added > MOST {
            return Err(BasinFault::BasinFull);
        }
        Ok(water)
    }
}
