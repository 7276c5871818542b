// The day of a layer of soil.
ghost use Rattle.std.specs.Prelude.{◌≡◌, ◌+◌, ◌-◌, ◌*◌, ◌/◌, ◌≤◌};
ghost use Rattle.profile.specs.Layers.{scaled_want, vapour_at, through, LayerTurn};

use crate::descent::Descent;
use crate::layer::Layer;
use fixed::decay::decay;

// A want times a part of 1 in thousand-millionths, cut.
fn scaled(want: u32, part: u32) -> u32
    requires { part ≤ 1000000000 }
    ensures value { result ≡ want * part / 1000000000 }
    ensures bound { result ≤ want }
{
    (want as u64 * part as u64 / 1_000_000_000) as u32
}

impl Layer {
    // What a want comes to at this much water.
    fn scale(&self, water: u32, want: u32) -> u32
        ensures value { result ≡ scaled_want self.now water want }
        ensures bound { result ≤ want }
    {
        if water >= self.capacity {
            return want;
        }
        let dryness = 2560 * (self.capacity - water) / (self.capacity - self.wilting);
        scaled(want, decay(dryness))
    }

    // What evaporates of this much water for a want.
    fn evaporation(&self, water: u32, want: u32) -> u32
        requires least { self.now.wilting ≤ water }
        requires most { water ≤ 100000000 }
        ensures value { result ≡ vapour_at self.now water want }
        ensures bound { result ≤ want }
        ensures left { result ≤ water - self.now.wilting }
    {
        self.scale(water, want).min(4 * (water - self.wilting) / 5)
    }

    // One day with what comes down from above; what goes on below.
    #[tactic(auto, using(crate::specs::Seeping::parts_within))]
    pub(crate) fn turn(&mut self, above: Descent) -> Descent
        requires { self.old.water + above.seepage + above.side + above.vapour ≤ 100000000 }
        ensures turned { LayerTurn self.old above self.new }
        ensures passed { result ≡ through self.old above }
        ensures drunk { result.vapour + result.demand ≤ above.vapour + above.demand }
    {
        let joined = self.water + above.seepage;
        // The water above field capacity seeps down and flows sideways.
        let excess = u64::from(joined.saturating_sub(self.capacity));
        let seepage = self.percolation.of(excess) as u32;
        let side = self.lateral.of(excess) as u32;
        let stays = joined - (seepage + side);
        let want = self.demand.of(u64::from(above.demand)) as u32;
        let vapour = self.evaporation(stays, want);
        self.water = stays - vapour;
        Descent {
            seepage,
            demand: above.demand - want,
            side: above.side + side,
            vapour: above.vapour + vapour,
        }
    }
}
