// Up to ten layers of soil, from the top down.
ghost use Rattle.std.specs.Prelude.{◌≤◌};

use crate::layer::Layer;

// A row for each layer that there may be. A type of its own: an array beside a ghost field is not lent out to be changed.
#[derive(Clone, Copy, Debug, PartialEq, Eq)]
pub struct Layers {
    pub rows: [Layer; 10],
}

// The first `count` rows are the soil's layers; what lies past them means nothing. No vector: a store is copied whole.
// Equality looks at all rows; those past the count are equal where `Profile::new` and `add` made the soil.
#[derive(Clone, Copy, Debug, PartialEq, Eq)]
pub struct Soil {
    pub layers: Layers,
    pub count: usize,
    ghost within: { count ≤ 10 },
}
