// A metre and a half of loam, wet in early spring, over a slow aquifer.
ghost use Rattle.std.specs.Prelude.{◌≡◌, ◌≤◌};
ghost use Rattle.profile.specs.Soils.{layers_of};
ghost use Rattle.column.specs.Loam.{column_settings, layer_settings, loam_layers, loam_settings};

use columns::SoilColumn;
use fixed::shape::Shape;
use fixed::share::Share;
use profile::layer::Layer;
use profile::profile::Profile;
use profile::soil::{Layers, Soil};
use snow::pack::Pack;
use snow::snowpack::Snowpack;
use stores::aquifer::Aquifer;
use surface::retention::Retention;
use surface::surface::Surface;

// So many millionths of a whole. The library's own answers an `Option`; these are known.
fn share(millionths: u32) -> Share
    requires { millionths ≤ 1000000 }
    ensures { result.millionths ≡ millionths }
{
    Share { millionths }
}

// Its three layers.
fn soil() -> Soil
    ensures { layer_settings (layers_of result) ≡ loam_layers }
{
    let top = Layer {
        wilting: 30_000,
        capacity: 90_000,
        water: 95_000,
        percolation: share(400_000),
        lateral: share(50_000),
        demand: share(600_000),
    };
    let middle = Layer {
        wilting: 60_000,
        capacity: 160_000,
        water: 165_000,
        percolation: share(300_000),
        lateral: share(30_000),
        demand: share(700_000),
    };
    let bottom = Layer {
        wilting: 80_000,
        capacity: 200_000,
        water: 204_000,
        percolation: share(200_000),
        lateral: share(20_000),
        demand: share(1_000_000),
    };
    // Rows past the third mean nothing.
    let mut rows = [bottom; 10];
    rows[0] = top;
    rows[1] = middle;
    Soil {
        layers: Layers { rows },
        count: 3,
    }
}

// The column of the program.
pub fn loam() -> SoilColumn
    ensures { column_settings result ≡ loam_settings }
{
    let aquifer = Aquifer {
        water: 50_000,
        deep: share(50_000),
        threshold: 40_000,
        recession: share(20_000),
    };
    let retention = Retention {
        greatest: 150_000,
        full: 280_000,
        shape: Shape {
            c1: 1_024,
            c2: 4_096,
        },
    };
    let pack = Pack {
        water: 0,
        temperature: 0,
        snowfall: 100,
        melting: 50,
        lag: 1_000,
        factor: 4_500,
    };
    Snowpack {
        pack,
        lower: Surface {
            retention,
            lower: Profile {
                soil: soil(),
                lower: aquifer,
            },
        },
    }
}
