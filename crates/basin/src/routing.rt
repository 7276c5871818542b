// One day through the reaches, from the first to the last. No store and no source is known here.
ghost use Rattle.std.specs.Prelude.{◌≡◌, ℕ, ◌+◌, ◌<◌, ◌≤◌, length, get_or, slice_index, slice_index_or};
ghost use Rattle.network.specs.Records.{flow0, reach0, site0};
ghost use Rattle.network.specs.Routing.{ReachDay, arriving, sides};
ghost use Rattle.basin.specs.Limits.{most, reach_water};
ghost use Rattle.basin.specs.Loops.{Ahead, due, passed};

use network::flows::{NO_REACH_FLOW, ReachFlow, UnitFlow};
use network::reach::Reach;
use network::site::Site;

// The side flow that comes to each reach, as its inflow.
pub fn gather(sites: &[Site], flows: &[UnitFlow], list: &mut [ReachFlow])
    requires long { length flows.now ≡ length sites.now }
    requires there { (i : ℕ) → i < length sites.now → (get_or sites.now i site0).reach < length list.old }
    requires small { (j : ℕ) → sides j sites.now flows.now ≤ most }
    ensures { (j : ℕ) → j < length list.new → (get_or list.new j flow0).inflow ≡ sides j sites.now flows.now }
{
    list.fill(NO_REACH_FLOW);
    for (site, flow) in sites.iter().zip(flows) {
        list[site.reach as usize].inflow += site.area as u128 * flow.side as u128;
    }
}

// One reach over a day: deep loss, then vapour, out of the gross outflow.
fn route_one(reach: &mut Reach, inflow: u128, demand: u32) -> ReachFlow
    requires { reach.old.stored + inflow ≤ most }
    ensures { ReachDay inflow demand reach.old reach.new result }
{
    let channel = reach.channel;
    let water = reach.stored + inflow as u64;
    let gross = channel.outflow.of(water);
    let deep = channel.loss.min(gross);
    let left = gross - deep;
    let vapour = channel
        .evaporation
        .of(demand as u64 * channel.surface as u64)
        .min(left);
    reach.stored = water - gross;
    ReachFlow {
        inflow,
        outflow: (left - vapour) as u128,
        vapour: vapour as u128,
        deep: deep as u128,
    }
}

// An outflow handed on to the next reach, if there is one.
fn pass(list: &mut [ReachFlow], next: Option<u8>, from: usize, outflow: u128)
    requires ahead { Ahead next from (length list.old) }
    requires small { (k : ℕ) → from < k → k < length list.old → (get_or list.old k flow0).inflow + outflow ≤ most }
    ensures { list.new ≡ passed next outflow list.old }
{
    if let Some(reach) = next {
        list[reach as usize].inflow += outflow;
    }
}

// The reaches in order, each with what its sites and the reaches above it gave.
pub fn route(reaches: &mut [Reach], demands: &[u32], list: &mut [ReachFlow])
    requires long { length list.old ≡ length reaches.old }
    requires asked { length demands.now ≡ length reaches.old }
    requires ahead { (j : ℕ) → j < length reaches.old → Ahead (get_or reaches.old j reach0).channel.next j (length reaches.old) }
    requires small { reach_water reaches.old + due list.old ≤ most }
    ensures fits { (j : ℕ) → j < length reaches.old → (get_or reaches.old j reach0).stored + (get_or list.new j flow0).inflow ≤ most }
    ensures routed { (j : ℕ) → j < length reaches.old → ReachDay ((get_or list.old j flow0).inflow + arriving j reaches.old list.new) (slice_index demands.now j) (slice_index_or reaches.old j reach0) (slice_index_or reaches.new j reach0) (slice_index_or list.new j flow0) }
{
    // A reach further on is written too, so each is found by its index.
    for (j, demand) in demands.iter().enumerate() {
        let next = reaches[j].channel.next;
        let flow = route_one(&mut reaches[j], list[j].inflow, *demand);
        list[j] = flow;
        pass(list, next, j, flow.outflow);
    }
}
