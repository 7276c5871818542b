// The stations and the days of a source, and the day of the year of its first.
ghost use Rattle.std.specs.Prelude.{◌≤◌};

#[derive(Clone, Copy, Debug, PartialEq, Eq)]
pub struct Span {
    pub stations: u8,
    pub days: u16,
    pub first: u16,
    ghost stationed: { (1 ≤ stations) × (stations ≤ 64) },
    ghost lasting: { (1 ≤ days) × (days ≤ 36500) },
    ghost begun: { (1 ≤ first) × (first ≤ 365) },
}
