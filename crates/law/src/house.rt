// The laws at the two columns of the house.
ghost use Rattle.std.specs.Prelude.{◌≡◌};
ghost use Rattle.columns.specs.Columns.{column_turns, column_water, rock_turns, rock_water};
ghost use Rattle.basin.specs.Law.{Balances};
ghost use Rattle.law.specs.Agreement.{CallsAgree, SuppliersAgree};
ghost use Rattle.law.specs.Upstream.{FollowsUpstream, Never};

use crate::agreement::suppliers_agree;
use crate::upstream::{upstream_settles, upstream_settles_beside};
use basin::law::balance_stands;
use columns::{RockColumn, SoilColumn};

// Basins of soil columns, and of rock columns, balance.
pub fn house_basins_balance()
    ensures soil { Balances column_water column_turns }
    ensures rock { Balances rock_water rock_turns }
{
    balance_stands::<SoilColumn>();
    balance_stands::<RockColumn>();
}

// Two suppliers of basins of soil columns, and of rock columns, agree.
pub fn house_suppliers_agree()
    ensures soil_call { CallsAgree column_water column_turns }
    ensures soil { SuppliersAgree column_water column_turns }
    ensures rock_call { CallsAgree rock_water rock_turns }
    ensures rock { SuppliersAgree rock_water rock_turns }
{
    suppliers_agree::<SoilColumn>();
    suppliers_agree::<RockColumn>();
}

// A reach follows what drains to it: soil with soil, rock with rock, and soil beside rock where no unit drains there.
pub fn house_reaches_follow_upstream()
    ensures soil { FollowsUpstream (λ s t. s ≡ t) column_water column_turns column_water column_turns }
    ensures rock { FollowsUpstream (λ s t. s ≡ t) rock_water rock_turns rock_water rock_turns }
    ensures beside { FollowsUpstream Never column_water column_turns rock_water rock_turns }
{
    upstream_settles::<SoilColumn>();
    upstream_settles::<RockColumn>();
    upstream_settles_beside::<SoilColumn, RockColumn>();
}
