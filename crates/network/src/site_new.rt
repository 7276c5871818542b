// Sites made of settings as a caller hands them over.
ghost use Rattle.network.specs.Making.{SiteMade};

use crate::site::Site;
use fixed::limits::natural;
use refusals::site::SiteSetting;

impl Site {
    // A site of these settings, or the first that is outside.
    pub fn new(area: i64, reach: i64, station: i64) -> Result<Site, SiteSetting>
        ensures { SiteMade area reach station result }
    {
        let area = natural(area, 1, 1_000_000_000).ok_or(SiteSetting::Area)?;
        let reach = natural(reach, 0, 255).ok_or(SiteSetting::SiteReach)?;
        let station = natural(station, 0, 63).ok_or(SiteSetting::SiteStation)?;
        Ok(Site {
            area,
            reach: reach as u8,
            station: station as u8,
        })
    }
}
