// The laws of basins at the stranger's store, without a proof of its own.
ghost use Rattle.basin.specs.Law.{Balances};
ghost use Rattle.law.specs.Upstream.{FollowsUpstream, Never};
ghost use Rattle.strangers.specs.Halves.{half_turns, half_water};

use crate::half::Half;
use basin::law::balance_stands;
use law::upstream::upstream_settles_beside;

// Nobody makes or loses a millilitre in a basin of such stores.
pub fn half_basins_balance()
    ensures { Balances half_water half_turns }
{
    balance_stands::<Half>();
}

// A reach to which no such store drains follows what drains to it.
pub fn half_reaches_follow_upstream()
    ensures { FollowsUpstream Never half_water half_turns half_water half_turns }
{
    upstream_settles_beside::<Half, Half>();
}
