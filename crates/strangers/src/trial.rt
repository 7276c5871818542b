// A basin of the stranger's stores under the stranger's weather, worked by hand.
#[cfg(test)]
mod tests {
    use crate::half::Half;
    use crate::steady::Steady;
    use basin::answer::{Answer, Sums};
    use basin::basin::Basin;
    use network::flows::{NO_REACH_FLOW, NO_UNIT_FLOW};
    use network::reach::Reach;
    use network::site::Site;
    use std::alloc::Global;
    use std::test::Fail;

    // A reach without a water surface.
    fn reach(next: Option<i64>, stored: i64, outflow: i64, loss: i64) -> Result<Reach, Fail> {
        Reach::new(next, 0, stored, outflow, loss, 0, 0).map_err(|_| Fail::new("no reach"))
    }

    fn site(area: i64, reach: i64) -> Result<Site, Fail> {
        Site::new(area, reach, 0).map_err(|_| Fail::new("no site"))
    }

    // Half of reach 0 goes to reach 1 each day, less 7 to the deep; a quarter of reach 1 leaves.
    fn valley(heap: Global) -> Result<Basin<Half>, Fail> {
        let sites = vec![in heap; site(3, 0)?, site(5, 1)?]?;
        let units = vec![in heap; Half { water: 10 }, Half { water: 20 }]?;
        let upper = reach(Some(1), 100, 500_000, 7)?;
        let lower = reach(None, 0, 250_000, 0)?;
        Ok(Basin::new(sites, units, vec![in heap; upper, lower]?))
    }

    // A run of n days under 1,001 micrometres of rain a day.
    fn rained(basin: &mut Basin<Half>, n: u64) -> Answer {
        basin.run(
            &Steady { rain: 1_001 },
            n,
            &mut [NO_UNIT_FLOW; 2],
            &mut [NO_REACH_FLOW; 2],
        )
    }

    // What stays and what left is what was there and what came.
    fn balances(answer: &Answer) -> bool {
        let sums = answer.sums;
        let left = sums
            .stream
            .wrapping_add(sums.vapour)
            .wrapping_add(sums.deep);
        answer.end.wrapping_add(left) == answer.start.wrapping_add(sums.rain)
    }

    // Each day 501 of 1,001 stay in a unit, and 3 x 500 and 5 x 500 come to the reaches; it rains 8 x 1,001.
    // Start: 3 x 10 + 5 x 20 + 100, and 50 poured into reach 0: 280.
    // Day 1: reach 0 has 1,650, gives 825: 7 deep, 818 on; reach 1 has 3,318, gives 829.
    // Day 2: reach 0 has 2,325, gives 1,162: 7 deep, 1,155 on; reach 1 has 2,489 + 3,655, gives 1,536.
    // End: 3 x 1,012 + 5 x 1,022 + 1,163 + 4,608; and 608 drawn from reach 1.
    // Day 3: reach 0 has 2,663, gives 1,331: 7 deep, 1,324 on; reach 1 has 4,000 + 3,824, gives 1,956.
    // End: 3 x 1,513 + 5 x 1,523 + 1,332 + 5,868.
    #[test]
    fn three_days(rt: HostRuntime) -> Result<(), Fail> {
        let mut basin = valley(rt.alloc())?;
        assert!(rt; basin.pour(0, 50).is_ok());
        let first = rained(&mut basin, 2);
        let wanted = Answer {
            days: 2,
            readings: 8,
            sums: Sums {
                rain: 16_016,
                stream: 2_365,
                vapour: 0,
                deep: 14,
            },
            start: 280,
            end: 13_917,
            stop: None,
        };
        assert_eq!(rt; first, wanted);
        assert!(rt; balances(&first));
        assert!(rt; basin.draw(1, 608).is_ok());
        let second = rained(&mut basin, 1);
        let wanted = Answer {
            days: 1,
            readings: 4,
            sums: Sums {
                rain: 8_008,
                stream: 1_956,
                vapour: 0,
                deep: 7,
            },
            start: 13_309,
            end: 19_354,
            stop: None,
        };
        assert_eq!(rt; second, wanted);
        assert!(rt; balances(&second));
        Ok(())
    }
}
