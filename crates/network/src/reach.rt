// A river reach: its settings, and the water in it.
ghost use Rattle.network.specs.Making.{NextMade, ReachMade};

use crate::channel::Channel;
use fixed::limits::{natural, volume};
use fixed::share::Share;
use refusals::reach::ReachSetting;

#[derive(Clone, Copy, Debug, PartialEq, Eq)]
pub struct Reach {
    pub channel: Channel,
    // Stored water, in millilitres.
    pub stored: u64,
}

// The most that a reach stores when it is made, and the greatest transmission loss.
const MOST: i64 = 1_000_000_000_000_000;

// The next reach as it is kept, unless there is one and it is outside.
fn downstream(next: Option<i64>) -> Result<Option<u8>, ReachSetting>
    ensures { NextMade next result }
{
    let Some(value) = next else {
        return Ok(None);
    };
    let reach = natural(value, 1, 255).ok_or(ReachSetting::Downstream)?;
    Ok(Some(reach as u8))
}

impl Reach {
    // A reach of these settings, or the first that is outside.
    pub fn new(
        next: Option<i64>,
        station: i64,
        stored: i64,
        outflow: i64,
        loss: i64,
        surface: i64,
        evaporation: i64,
    ) -> Result<Reach, ReachSetting>
        ensures { ReachMade next station stored outflow loss surface evaporation result }
    {
        let next = downstream(next)?;
        let station = natural(station, 0, 63).ok_or(ReachSetting::ReachStation)?;
        let stored = volume(stored, MOST).ok_or(ReachSetting::StoredWater)?;
        let outflow = Share::new(outflow).ok_or(ReachSetting::StorageCoefficient)?;
        let loss = volume(loss, MOST).ok_or(ReachSetting::TransmissionLoss)?;
        let surface = natural(surface, 0, 100_000_000).ok_or(ReachSetting::WaterSurface)?;
        let evaporation = Share::new(evaporation).ok_or(ReachSetting::EvaporationShare)?;
        let channel = Channel {
            next,
            station: station as u8,
            outflow,
            loss,
            surface,
            evaporation,
        };
        Ok(Reach { channel, stored })
    }
}
