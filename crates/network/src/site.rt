// A site: where a unit lies, and how much of the basin it covers.
ghost use Rattle.std.specs.Prelude.{◌≤◌};

#[derive(Clone, Copy, Debug, PartialEq, Eq)]
pub struct Site {
    // In square metres.
    pub area: u32,
    // The reach that the unit drains to.
    pub reach: u8,
    pub station: u8,
    ghost sized: { (1 ≤ area) × (area ≤ 1000000000) },
    ghost stationed: { station ≤ 63 },
}
