// Days worked by hand, and runs one after another.
#[cfg(test)]
mod tests {
    use crate::answers::tests::{REACH, Told, UNIT, balances, run};
    use crate::valleys::tests::{held, rock, share, valley};
    use basin::basin::Basin;
    use columns::SoilColumn;
    use fixed::shape::Shape;
    use network::reach::Reach;
    use network::site::Site;
    use profile::layer::Layer;
    use profile::profile::Profile;
    use snow::snowpack::Snowpack;
    use sources::normal_year::NormalYear;
    use sources::span::Span;
    use std::alloc::{AllocError, Global};
    use std::test::Fail;
    use stores::aquifer::Aquifer;
    use surface::retention::Retention;
    use surface::surface::Surface;
    use weather::day::Day;

    // 2,000 micrometres of rain and a demand of 300 every day.
    fn years() -> NormalYear {
        let day = Day {
            date: 1,
            rain: 2_000,
            highest: 1_000,
            lowest: 400,
            demand: 300,
        };
        let span = Span {
            stations: 1,
            days: 36_500,
            first: 1,
        };
        NormalYear {
            months: [day; 12],
            span,
        }
    }

    // Both units pass the rain on: 4,000 to reach 0, 6,000 to reach 1; the snow of unit 0 loses 300 a day.
    // Day 1: reach 0 has 5,000, gives 2,500: 100 deep, 1,500 vapour, 900 on.
    //        Reach 1 has 6,900, gives 1,725: 1,200 vapour, 525 stream.
    // Day 2: reach 0 has 6,500, gives 3,250: 100 deep, 1,500 vapour, 1,650 on.
    //        Reach 1 has 5,175 + 7,650, gives 3,206: 1,200 vapour, 2,006 stream.
    fn two_days(heap: Global) -> Result<bool, AllocError> {
        let mut basin = valley(heap, [0; 4], [rock(1_000), rock(0)], [1_000, 0])?;
        let told = run(&mut basin, &years(), 2);
        let wanted = Told {
            figures: [2, 8, 3_000, 13_669],
            moved: [
                [20_000, 2_531, 6_600, 200],
                [4_000, 4_000, 600, 0],
                [4_000, 4_000, 0, 0],
                [8_000, 2_550, 3_000, 200],
                [14_550, 2_531, 2_400, 0],
            ],
            stop: None,
        };
        Ok(told == wanted && held(&basin) == [400, 0, 3_250, 9_619, 2])
    }

    #[test]
    fn worked(rt: HostRuntime) -> Result<(), Fail> {
        assert!(rt; two_days(rt.alloc())?);
        Ok(())
    }

    // Outflow share, greatest loss, water surface and evaporation share of one reach with 1,000, to which 4,000 come
    // on a day with a demand of 300; its outflow, vapour and deep loss, and what it stores then.
    const ROUTES: [([i64; 4], [u128; 4]); 7] = [
        ([500_000, 100, 10, 500_000], [900, 1_500, 100, 2_500]),
        ([500_000, 2_000, 10, 500_000], [0, 500, 2_000, 2_500]),
        ([500_000, 10_000, 10, 500_000], [0, 0, 2_500, 2_500]),
        ([0, 100, 10, 1_000_000], [0, 0, 0, 5_000]),
        ([1_000_000, 0, 0, 1_000_000], [5_000, 0, 0, 0]),
        ([333_333, 0, 1, 3_333], [1_666, 0, 0, 3_334]),
        ([1_000_000, 1, 1, 3_334], [4_998, 1, 1, 0]),
    ];

    fn routed(heap: Global, settings: [i64; 4]) -> Result<[u128; 4], Fail> {
        let [outflow, loss, surface, evaporation] = settings;
        let reach = Reach::new(None, 0, 1_000, outflow, loss, surface, evaporation).map_err(
            |_| Fail::new("no reach"),
        )?;
        let site = Site {
            area: 2,
            reach: 0,
            station: 0,
        };
        let sites = vec![in heap; site]?;
        let units = vec![in heap; rock(0)]?;
        let mut basin = Basin::new(sites, units, vec![in heap; reach]?);
        let mut flows = [REACH; 1];
        let answer = basin.run(&years(), 1, &mut [UNIT; 1], &mut flows);
        let [flow] = flows;
        Ok([flow.outflow, flow.vapour, flow.deep, answer.end])
    }

    #[test]
    fn one_reach(rt: HostRuntime) -> Result<(), Fail> {
        for (settings, wanted) in ROUTES {
            assert_eq!(rt; routed(rt.alloc(), settings)?, wanted);
        }
        Ok(())
    }

    // Snow over a surface over one layer over an aquifer.
    fn soil(snow: u32) -> SoilColumn {
        let aquifer = Aquifer {
            water: 50_000,
            deep: share(100_000),
            threshold: 40_000,
            recession: share(50_000),
        };
        let layer = Layer {
            wilting: 100_000,
            capacity: 300_000,
            water: 350_000,
            percolation: share(400_000),
            lateral: share(100_000),
            demand: share(500_000),
        };
        let retention = Retention {
            greatest: 50_000,
            full: 300_000,
            shape: Shape {
                c1: 1_024,
                c2: 2_048,
            },
        };
        let mut lower = Profile::new(aquifer);
        let _ = lower.add(layer);
        Snowpack {
            pack: rock(snow).pack,
            lower: Surface { retention, lower },
        }
    }

    // What two runs moved together is what one moved.
    fn add_up(first: &Told, second: &Told, whole: &Told) -> bool {
        let parts = first
            .moved
            .iter()
            .flatten()
            .zip(second.moved.iter().flatten());
        parts
            .zip(whole.moved.iter().flatten())
            .all(|((one, other), both)| one.wrapping_add(*other) == *both)
    }

    // 400 days of soil columns at once, and as 150 days and then 250.
    fn parts_and_whole(heap: Global) -> Result<bool, AllocError> {
        let mut once = valley(heap, [0; 4], [soil(20_000), soil(0)], [1_000, 0])?;
        let mut twice = valley(heap, [0; 4], [soil(20_000), soil(0)], [1_000, 0])?;
        let whole = run(&mut once, &years(), 400);
        let first = run(&mut twice, &years(), 150);
        let second = run(&mut twice, &years(), 250);
        let [_, _, start, middle] = first.figures;
        let [_, _, again, end] = second.figures;
        Ok(
            whole.figures == [400, 1_600, start, end]
                && middle == again
                && add_up(&first, &second, &whole)
                && balances(&whole)
                && held(&once) == held(&twice),
        )
    }

    #[test]
    fn two_runs_and_one(rt: HostRuntime) -> Result<(), Fail> {
        assert!(rt; parts_and_whole(rt.alloc())?);
        Ok(())
    }
}
