// A day of weather: none exists outside these limits.
ghost use Rattle.std.specs.Prelude.{◌≤◌, pos, negsuc, ◌≤ℤ◌};

#[derive(Clone, Copy, Debug, PartialEq, Eq)]
pub struct Day {
    // Day of the year.
    pub date: u16,
    // Depths are in micrometres, temperatures in hundredths of a degree Celsius.
    pub rain: u32,
    pub highest: i32,
    pub lowest: i32,
    // Evaporative demand: potential evapotranspiration.
    pub demand: u32,
    ghost dated: { (1 ≤ date) × (date ≤ 365) },
    ghost wet: { rain ≤ 1000000 },
    ghost warm: { highest ≤ℤ pos 6000 },
    ghost warmer: { lowest ≤ℤ highest },
    ghost cold: { negsuc 5999 ≤ℤ lowest },
    ghost dry: { demand ≤ 50000 },
}
