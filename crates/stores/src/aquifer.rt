// A bottom that loses water to the deep and, above a threshold, sideways.
ghost use Rattle.std.specs.Prelude.{◌≤◌};

use fixed::share::Share;

#[derive(Clone, Copy, Debug, PartialEq, Eq)]
pub struct Aquifer {
    pub water: u32,
    pub deep: Share,
    pub threshold: u32,
    pub recession: Share,
    ghost held: { water ≤ 100000000 },
    ghost level: { threshold ≤ 100000000 },
}
