// The soil-moisture curve.
ghost use Rattle.std.specs.Prelude.{◌≡◌, ◌<◌, ◌≤◌};
ghost use Rattle.fixed.specs.Moisture.{exponent_at, moisture_by, moisture_above, moisture_at};

use crate::decay::decay;
use crate::shape::Shape;
use crate::share::Share;

// The curve at a moisture x above 0 and the exponent a, where e is exp(-|a|) in millionths.
fn moisture_by(x: Share, a: i32, e: u32) -> Share
    requires moist { 0 < x.millionths }
    requires falling { e ≤ 1000000 }
    ensures { result.millionths ≡ moisture_by x.millionths a e }
{
    let x = x.millionths as u64;
    if a >= 0 {
        let product = x * e as u64;
        Share {
            millionths: (1_000_000 * product / (product + 1_000_000_000_000)) as u32,
        }
    } else {
        Share {
            millionths: (1_000_000 * x / (x + e as u64)) as u32,
        }
    }
}

impl Shape {
    fn exponent(&self, x: Share) -> i32
        ensures { result ≡ exponent_at x.millionths self.now.c1 self.now.c2 }
    {
        self.c1 - (self.c2 as u64 * x.millionths as u64 / 1_000_000) as i32
    }

    // The curve at a moisture above 0.
    fn above(&self, x: Share) -> Share
        requires { 0 < x.millionths }
        ensures { result.millionths ≡ moisture_above x.millionths self.now.c1 self.now.c2 }
    {
        let a = self.exponent(x);
        let e = decay(a.unsigned_abs()) / 1000;
        moisture_by(x, a, e)
    }

    // The curve at a moisture: nothing at 0.
    pub fn moisture(&self, x: Share) -> Share
        ensures { result.millionths ≡ moisture_at x.millionths self.now.c1 self.now.c2 }
    {
        if x.millionths == 0 {
            return x;
        }
        self.above(x)
    }
}
