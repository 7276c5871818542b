// The settings of a river reach, which no day changes.
ghost use Rattle.std.specs.Prelude.{◌≡◌, ◌≤◌, false};
ghost use Rattle.network.specs.Nexts.{is_first};

use fixed::share::Share;

#[derive(Clone, Copy, Debug, PartialEq, Eq)]
pub struct Channel {
    // The next reach downstream, if there is one.
    pub next: Option<u8>,
    pub station: u8,
    // Storage coefficient: the share of the water that leaves on a day.
    pub outflow: Share,
    // Transmission loss: the most that seeps to the deep on a day, in millilitres.
    pub loss: u64,
    // Water surface, in square metres.
    pub surface: u32,
    // Share of the evaporative demand that the surface meets.
    pub evaporation: Share,
    ghost onward: { is_first next ≡ false },
    ghost stationed: { station ≤ 63 },
    ghost lossy: { loss ≤ 1000000000000000 },
    ghost wide: { surface ≤ 100000000 },
}
