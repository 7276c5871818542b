// A layer of soil.
ghost use Rattle.std.specs.Prelude.{◌+◌, ◌<◌, ◌≤◌};

use fixed::share::Share;

#[derive(Clone, Copy, Debug, PartialEq, Eq)]
pub struct Layer {
    // Depths of water, in micrometres.
    pub wilting: u32,
    pub capacity: u32,
    pub water: u32,
    // Shares of the water above field capacity.
    pub percolation: Share,
    pub lateral: Share,
    // Share of the evaporative demand that reaches the layer.
    pub demand: Share,
    ghost points: { (wilting < capacity) × (capacity ≤ 1000000) },
    ghost held: { (wilting ≤ water) × (water ≤ 100000000) },
    ghost parts: { percolation.millionths + lateral.millionths ≤ 1000000 },
}
