// Flow lists and volumes: added up, and summed over a day.
ghost use Rattle.std.specs.Prelude.{◌≡◌, ℕ, ◌<◌, ◌≤◌, length, slice_index_or};
ghost use Rattle.network.specs.Records.{flow0};
ghost use Rattle.basin.specs.Limits.{most};
ghost use Rattle.basin.specs.Loops.{EachAtMost, SumsAtMost, day_sums_most, reach_sums_most, unit_sums_most};
ghost use Rattle.basin.specs.Run.{leaving, reach_sums, sums_of, unit_sums};

use crate::answer::{NO_SUMS, Sums};
use network::flows::{ReachFlow, UnitFlow};
use network::reach::Reach;
use network::site::Site;
use std::ops::Add;

// A day's records added to a run's.
pub fn add_all<F: Copy + Add<Output = F>>(list: &mut [F], day: &[F])
    requires long { length day.now ≡ length list.old }
    requires small { (k : ℕ) (d : F) → k < length list.old → F.can_add (slice_index_or list.old k d) (slice_index_or day.now k d) }
    ensures { (k : ℕ) (d : F) → k < length list.old → F.add_gives (slice_index_or list.old k d) (slice_index_or day.now k d) (slice_index_or list.new k d) }
{
    // By index: after a zip with the day a proof knows the list's length and no more (tried).
    for (i, record) in list.iter_mut().enumerate() {
        *record = *record + day[i];
    }
}

// Rain, vapour and deep loss of the units, each over its area.
fn unit_sums(sites: &[Site], flows: &[UnitFlow]) -> Sums
    requires long { length flows.now ≡ length sites.now }
    requires few { length sites.now ≤ 1024 }
    ensures value { result ≡ unit_sums sites.now flows.now }
    ensures small { SumsAtMost unit_sums_most result }
{
    let mut sums = NO_SUMS;
    for (site, flow) in sites.iter().zip(flows) {
        let area = site.area as u128;
        sums.rain += area * flow.rain as u128;
        sums.vapour += area * flow.vapour as u128;
        sums.deep += area * flow.deep as u128;
    }
    sums
}

// What an outflow adds to the stream.
fn leaves(next: Option<u8>, outflow: u128) -> u128
    ensures { result ≡ leaving next outflow }
{
    next.map_or(outflow, |_| 0)
}

// Stream, vapour and deep loss of the reaches.
fn reach_sums(reaches: &[Reach], flows: &[ReachFlow]) -> Sums
    requires long { length flows.now ≡ length reaches.now }
    requires few { length reaches.now ≤ 256 }
    requires small { EachAtMost most flows.now }
    ensures value { result ≡ reach_sums reaches.now flows.now }
    ensures small { SumsAtMost reach_sums_most result }
{
    let mut sums = NO_SUMS;
    for (reach, flow) in reaches.iter().zip(flows) {
        sums.stream += leaves(reach.channel.next, flow.outflow);
        sums.vapour += flow.vapour;
        sums.deep += flow.deep;
    }
    sums
}

// What a day moved, in millilitres.
pub fn day_sums(sites: &[Site], reaches: &[Reach], units: &[UnitFlow], flows: &[ReachFlow]) -> Sums
    requires long { length units.now ≡ length sites.now }
    requires few { length sites.now ≤ 1024 }
    requires long_reaches { length flows.now ≡ length reaches.now }
    requires few_reaches { length reaches.now ≤ 256 }
    requires small { EachAtMost most flows.now }
    ensures value { result ≡ sums_of sites.now reaches.now (record { units = units.now; reaches = flows.now }) }
    ensures small { SumsAtMost day_sums_most result }
{
    unit_sums(sites, units) + reach_sums(reaches, flows)
}
