// A reach is settled by what drains to it.
ghost use Rattle.std.specs.Prelude.{◌≡◌};
ghost use Rattle.law.specs.Upstream.{FollowsUpstream, Never};

use stores::determined::Determined;
use stores::store::Store;

// Two basins of one kind of unit, alike in a reach and all that drains to it.
pub fn upstream_settles<S: Determined>()
    ensures { FollowsUpstream (λ s t. s ≡ t) S.Store.water S.Store.turns S.Store.water S.Store.turns }
{}

// Two basins of different kinds, alike in a reach to which no unit drains.
pub fn upstream_settles_beside<S: Store, T: Store>()
    ensures { FollowsUpstream Never S.Store.water S.Store.turns T.Store.water T.Store.turns }
{}
