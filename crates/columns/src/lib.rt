#![tactic(auto)]
// The two columns of the house, and that each has one outcome for every turn.
ghost use Rattle.stores.specs.Outcome.{OneOutcome};
ghost use Rattle.columns.specs.Columns.{column_water, column_turns, rock_water, rock_turns};

use profile::profile::Profile;
use snow::snowpack::Snowpack;
use stores::aquifer::Aquifer;
use stores::determined::one_outcome;
use stores::rock::Rock;
use surface::surface::Surface;

// Snow over a surface over layers of soil over an aquifer.
pub type SoilColumn = Snowpack<Surface<Profile<Aquifer>>>;

// Snow over bare rock.
pub type RockColumn = Snowpack<Rock>;

// Two turns of one soil column, and of one rock column, end alike.
pub fn columns_have_one_outcome()
    ensures soil { OneOutcome column_water column_turns }
    ensures rock { OneOutcome rock_water rock_turns }
{
    one_outcome::<SoilColumn>();
    one_outcome::<RockColumn>();
}
