// What a surface holds back, by how full the roots are.
ghost use Rattle.std.specs.Prelude.{◌≤◌};

use fixed::shape::Shape;

#[derive(Clone, Copy, Debug, PartialEq, Eq)]
pub struct Retention {
    // The retention parameter of dry soil.
    pub greatest: u32,
    // The root water of full soil.
    pub full: u32,
    pub shape: Shape,
    ghost holds: { greatest ≤ 1000000 },
    ghost fills: { (1 ≤ full) × (full ≤ 100000000) },
}
