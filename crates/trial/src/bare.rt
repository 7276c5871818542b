// Ten square metres of rock that drain to one reach.
ghost use Rattle.trial.specs.Bare.{BareOr};

use basin::basin::Basin;
use columns::RockColumn;
use fixed::share::Share;
use network::channel::Channel;
use network::reach::Reach;
use network::site::Site;
use snow::pack::Pack;
use snow::snowpack::Snowpack;
use std::alloc::{AllocError, Global};
use stores::rock::Rock;

// Snow over rock: every setting is 0 but the lag, a whole.
const ROCK: RockColumn = Snowpack {
    pack: Pack {
        water: 0,
        temperature: 0,
        snowfall: 0,
        melting: 0,
        lag: 1_000,
        factor: 0,
    },
    lower: Rock,
};

// A reach without a next one that lets half of its water go each day.
const HALF: Reach = Reach {
    channel: Channel {
        next: None,
        station: 0,
        outflow: Share {
            millionths: 500_000,
        },
        loss: 0,
        surface: 0,
        evaporation: Share { millionths: 0 },
    },
    stored: 0,
};

const TEN: Site = Site {
    area: 10,
    reach: 0,
    station: 0,
};

// The basin of the program.
pub fn bare_basin(heap: Global) -> Result<Basin<RockColumn>, AllocError>
    ensures { BareOr result }
{
    let sites = vec![in heap; TEN]?;
    let units = vec![in heap; ROCK]?;
    let reaches = vec![in heap; HALF]?;
    Ok(Basin::new(sites, units, reaches))
}
