// The two shape coefficients of a soil-moisture curve, in 1,024ths.
ghost use Rattle.std.specs.Prelude.{◌≤◌, pos, negsuc, ◌≤ℤ◌};

#[derive(Clone, Copy, Debug, PartialEq, Eq)]
pub struct Shape {
    pub c1: i32,
    pub c2: u32,
    ghost bends: { (c1 ≤ℤ pos 16383) × (negsuc 16382 ≤ℤ c1) },
    ghost falls: { c2 ≤ 32767 },
}
