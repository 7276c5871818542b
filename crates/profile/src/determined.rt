// A profile over a store whose turn has one outcome is such a store.
ghost use Rattle.profile.specs.Profiles.{profile_gives};
ghost use Rattle.profile.specs.Alike.{profile_single, profile_given};

use crate::profile::Profile;
use stores::determined::Determined;

impl<L: Determined> Determined for Profile<L> {
    ghost gives = { λ s i d w. profile_gives L.Determined.gives s.soil s.lower i d w };

    ghost single = { λ s i d w t u f e x y.
        let z = profile_single L.Store.turns L.Determined.single t.soil u.soil t.lower u.lower f e x y in
        (λ j. record { soil = z.0 j; lower = z.1 j }, z.2) };

    ghost given = { λ s i d w t f x. profile_given L.Store.turns L.Determined.gives L.Determined.given t.soil t.lower f x };
}
