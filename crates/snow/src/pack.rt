// The snow of a snowpack, without what lies below it.
ghost use Rattle.std.specs.Prelude.{◌≤◌, pos, negsuc, ◌≤ℤ◌};

#[derive(Clone, Copy, Debug, PartialEq, Eq)]
pub struct Pack {
    // Snow water equivalent.
    pub water: u32,
    pub temperature: i32,
    // At or below this mean temperature what falls is snow.
    pub snowfall: i32,
    pub melting: i32,
    // Thousandths of the day's mean in the pack's new temperature.
    pub lag: u32,
    // Degree-day melt factor: micrometres per degree and day.
    pub factor: u32,
    ghost held: { water ≤ 100000000 },
    ghost cold: { (temperature ≤ℤ pos 6000) × (negsuc 5999 ≤ℤ temperature) },
    ghost falls: { (snowfall ≤ℤ pos 500) × (negsuc 499 ≤ℤ snowfall) },
    ghost melts: { (melting ≤ℤ pos 500) × (negsuc 499 ≤ℤ melting) },
    ghost lags: { lag ≤ 1000 },
    ghost paced: { factor ≤ 20000 },
}
