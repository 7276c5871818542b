// How a layer of soil is made.
ghost use Rattle.profile.specs.Making.{LayerMade};

use crate::layer::Layer;
use fixed::limits::natural;
use fixed::share::{Share, WHOLE};
use refusals::layer::LayerSetting;

impl Layer {
    // A layer of these settings, or the first of them that is outside its limits.
    pub fn new(
        wilting: i64,
        capacity: i64,
        water: i64,
        percolation: i64,
        lateral: i64,
        demand: i64,
    ) -> Result<Layer, LayerSetting>
        ensures { LayerMade wilting capacity water percolation lateral demand result }
    {
        let wilting = natural(wilting, 0, 999_999).ok_or(LayerSetting::WiltingPoint)?;
        let capacity = natural(capacity, wilting + 1, 1_000_000).ok_or(
            LayerSetting::FieldCapacity,
        )?;
        let water = natural(water, wilting, 2_000_000).ok_or(LayerSetting::SoilWater)?;
        let percolation = Share::new(percolation).ok_or(LayerSetting::Percolation)?;
        // What the percolation share leaves of a whole.
        let lateral = natural(lateral, 0, WHOLE - percolation.millionths).ok_or(
            LayerSetting::Lateral,
        )?;
        let demand = Share::new(demand).ok_or(LayerSetting::DemandShare)?;
        Ok(Layer {
            wilting,
            capacity,
            water,
            percolation,
            lateral: Share {
                millionths: lateral,
            },
            demand,
        })
    }
}
