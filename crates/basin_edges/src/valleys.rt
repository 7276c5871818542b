// Basins of two sites and two reaches.
ghost use Rattle.std.specs.Prelude.{◌≡◌, ◌≤◌};

#[cfg(test)]
pub mod tests {
    use basin::basin::Basin;
    use columns::RockColumn;
    use fixed::share::Share;
    use network::channel::Channel;
    use network::reach::Reach;
    use network::site::Site;
    use snow::pack::Pack;
    use snow::snowpack::Snowpack;
    use std::alloc::{AllocError, Global};
    use stores::rock::Rock;
    use stores::store::Store;

    // Snow that does not melt, within its limit, over rock.
    pub fn rock(snow: u32) -> RockColumn {
        let pack = Pack {
            water: snow.min(100_000_000),
            temperature: 0,
            snowfall: 0,
            melting: 0,
            lag: 1_000,
            factor: 0,
        };
        Snowpack { pack, lower: Rock }
    }

    // Known shares; the library's own, which may be none, is an `Option`.
    pub fn share(millionths: u32) -> Share
        requires { millionths ≤ 1000000 }
        ensures { result.millionths ≡ millionths }
    {
        Share { millionths }
    }

    // The two reaches stay two functions: their channels differ in all but the station.
    // Half of it goes on to reach 1 each day, less 100 to the deep and half of the demand on 10 square metres.
    fn upper(station: u8, stored: u64) -> Reach {
        let channel = Channel {
            next: Some(1),
            station: station.min(63),
            outflow: share(500_000),
            loss: 100,
            surface: 10,
            evaporation: share(500_000),
        };
        Reach { channel, stored }
    }

    // A quarter of it leaves the basin, less the demand on 4 square metres.
    fn lower(station: u8, stored: u64) -> Reach {
        let channel = Channel {
            next: None,
            station: station.min(63),
            outflow: share(250_000),
            loss: 0,
            surface: 4,
            evaporation: share(1_000_000),
        };
        Reach { channel, stored }
    }

    // A site of 2 square metres at the upper reach, one of 3 at the lower; the stations of both, then of the reaches.
    pub fn valley<S: Store + Copy>(
        heap: Global,
        stations: [u8; 4],
        units: [S; 2],
        stored: [u64; 2],
    ) -> Result<Basin<S>, AllocError> {
        let near = Site {
            area: 2,
            reach: 0,
            station: stations[0].min(63),
        };
        let far = Site {
            area: 3,
            reach: 1,
            station: stations[1].min(63),
        };
        let sites = vec![in heap; near, far]?;
        let units = vec![in heap; units[0], units[1]]?;
        let reaches = vec![in heap;
            upper(stations[2], stored[0]),
            lower(stations[3], stored[1]),
        ]?;
        Ok(Basin::new(sites, units, reaches))
    }

    // The water of both units as it is told, that of both reaches, and the day count.
    pub fn tally<S: Store + Copy, F: Fn(&S) -> u128>(basin: &Basin<S>, water: F) -> [u128; 5]
        requires { F.IsAlwaysCallable water }
    {
        let ([near, far], [upper, lower]) = (basin.units(), basin.reaches()) else {
            return [0; 5];
        };
        [
            water(near),
            water(far),
            upper.stored as u128,
            lower.stored as u128,
            basin.day_count() as u128,
        ]
    }

    // A unit that passes its limit tells nothing.
    pub fn held<S: Store + Copy>(basin: &Basin<S>) -> [u128; 5] {
        tally(
            basin,
            |unit| unit.water().map_or(u128::MAX, |water| water as u128),
        )
    }
}
