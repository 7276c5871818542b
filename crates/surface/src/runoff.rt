// How a surface's retention is made, and the runoff that it leaves.
ghost use Rattle.std.specs.Prelude.{◌≡◌, ◌≤◌};
ghost use Rattle.surface.specs.Runoff.{RetentionMade, fullness, retained, runoff_of};

use crate::retention::Retention;
use fixed::limits::{integer, natural};
use fixed::shape::Shape;
use fixed::share::{Share, WHOLE};
use refusals::surface::SurfaceSetting;
use stores::store::LIMIT;

impl Retention {
    // The retention of these settings, or the first of them that is outside its limits.
    pub fn new(greatest: i64, full: i64, c1: i64, c2: i64) -> Result<Retention, SurfaceSetting>
        ensures { RetentionMade greatest full c1 c2 result }
    {
        let greatest = natural(greatest, 0, 1_000_000).ok_or(SurfaceSetting::Retention)?;
        let full = natural(full, 1, LIMIT).ok_or(SurfaceSetting::FullWater)?;
        let c1 = integer(c1, -16_383, 16_383).ok_or(SurfaceSetting::FirstShape)?;
        let c2 = natural(c2, 0, 32_767).ok_or(SurfaceSetting::SecondShape)?;
        let shape = Shape { c1, c2 };
        Ok(Retention {
            greatest,
            full,
            shape,
        })
    }

    // How full the roots are; what passes full soil is full.
    #[tactic(auto, unfolding(crate::specs::Runoff::fullness))]
    fn fullness(&self, root: u32) -> Share
        ensures { result.millionths ≡ fullness self.now root }
    {
        let millionths = root as u64 * WHOLE as u64 / self.full as u64;
        Share {
            millionths: millionths.min(WHOLE as u64) as u32,
        }
    }

    // The retention parameter at a root water.
    fn at(&self, root: u32) -> u32
        ensures value { result ≡ retained self.now root }
        ensures bound { result ≤ 1000000 }
    {
        let moisture = self.shape.moisture(self.fullness(root));
        self.greatest - moisture.of(self.greatest as u64) as u32
    }

    // What of an inflow runs off at a root water.
    pub(crate) fn runoff(&self, inflow: u32, root: u32) -> u32
        requires { inflow ≤ 100000000 }
        ensures value { result ≡ runoff_of inflow (retained self.now root) }
        ensures bound { result ≤ inflow }
    {
        runs_off(inflow, self.at(root))
    }
}

// What of an inflow runs off a surface that holds s back.
#[tactic(auto, using(crate::proofs::Squares::runoff_le), unfolding(crate::specs::Runoff::runoff_of))]
fn runs_off(inflow: u32, s: u32) -> u32
    requires inflow { inflow ≤ 100000000 }
    requires held { s ≤ 1000000 }
    ensures value { result ≡ runoff_of inflow s }
    ensures bound { result ≤ inflow }
{
    if 5 * inflow > s {
        let over = (5 * inflow - s) as u64;
        (over * over / (5 * (5 * inflow as u64 + 4 * s as u64))) as u32
    } else {
        0
    }
}
