// The day of the layers of soil, and what they hold.
ghost use Rattle.std.specs.Prelude.{◌≡◌, ◌+◌, ◌≤◌, length, take, drop};
ghost use Rattle.profile.specs.Soils.{SoilTurn, Added, empty_soil, soil_water, soil_root, layers_of, layers_water, descended, LayersTurn, through_all};

use crate::descent::Descent;
use crate::layer::Layer;
use crate::soil::{Layers, Soil};
use fixed::share::Share;
use refusals::profile::ProfileFull;

impl Layers {
    // One day of the first layers, from the top down, with what comes down to them; what comes out below.
    fn turn(&mut self, count: usize, above: Descent) -> Descent
        requires there { count ≤ 10 }
        requires room { layers_water (take count self.old.rows) + above.seepage + above.side + above.vapour ≤ 100000000 }
        ensures turned { LayersTurn (take count self.old.rows) above (take count self.new.rows) }
        ensures rest { drop count self.new.rows ≡ drop count self.old.rows }
        ensures passed { result ≡ through_all (take count self.old.rows) above }
        ensures balance { layers_water (take count self.new.rows) + result.seepage + result.side + result.vapour ≡ layers_water (take count self.old.rows) + above.seepage + above.side + above.vapour }
        ensures drunk { result.vapour + result.demand ≤ above.vapour + above.demand }
    {
        let mut descent = above;
        for layer in &mut self.rows[..count] {
            descent = layer.turn(descent);
        }
        descent
    }
}

impl Soil {
    // No layers yet: each row holds a layer without water or shares.
    pub(crate) fn empty() -> Soil
        ensures { result ≡ empty_soil }
    {
        let none = Share { millionths: 0 };
        let bare = Layer {
            wilting: 0,
            capacity: 1,
            water: 0,
            percolation: none,
            lateral: none,
            demand: none,
        };
        Soil {
            layers: Layers { rows: [bare; 10] },
            count: 0,
        }
    }

    // A layer more at the bottom, unless there are ten.
    pub(crate) fn add(&mut self, layer: Layer) -> Result<(), ProfileFull>
        ensures { Added self.old layer self.new result }
    {
        if self.count >= 10 {
            return Err(ProfileFull);
        }
        self.layers.rows[self.count] = layer;
        self.count += 1;
        Ok(())
    }

    // Its layers.
    fn layers(&self) -> &[Layer]
        ensures value { result.now ≡ layers_of self.now }
        ensures few { length result.now ≤ 10 }
    {
        &self.layers.rows[..self.count]
    }

    // The water of all layers.
    pub(crate) fn water(&self) -> u64
        ensures value { result ≡ soil_water self.now }
        ensures bound { result ≤ 1000000000 }
    {
        self.layers()
            .iter()
            .map(|layer| u64::from(layer.water))
            .sum()
    }

    // The water above the wilting points.
    pub(crate) fn root_water(&self) -> u64
        ensures value { result ≡ soil_root self.now }
        ensures bound { result ≤ 1000000000 }
    {
        self.layers()
            .iter()
            .map(|layer| u64::from(layer.water - layer.wilting))
            .sum()
    }

    // One day from the top down; what comes out below.
    pub(crate) fn turn(&mut self, inflow: u32, demand: u32) -> Descent
        requires { soil_water self.old + inflow ≤ 100000000 }
        ensures turned { SoilTurn self.old inflow demand self.new }
        ensures passed { result ≡ descended self.old inflow demand }
        ensures balance { soil_water self.new + result.seepage + result.side + result.vapour ≡ soil_water self.old + inflow }
        ensures drunk { result.vapour + result.demand ≤ demand }
    {
        let above = Descent {
            seepage: inflow,
            demand,
            side: 0,
            vapour: 0,
        };
        self.layers.turn(self.count, above)
    }
}
