// Tables and lists that fit together, and those that do not: 51 to 54.
#[cfg(test)]
mod tests {
    use crate::answers::tests::{REACH, Refusal, UNIT, refusal};
    use crate::valleys::tests::{held, rock, valley};
    use basin::basin::Basin;
    use columns::RockColumn;
    use network::flows::{ReachFlow, UnitFlow};
    use network::reach::Reach;
    use network::site::Site;
    use refusals::values::Values::One;
    use std::alloc::{AllocError, Global};
    use std::test::Fail;
    use stores::store::Store;
    use strangers::steady::Steady;

    // Area and reach of each site, how many units, and the next of each reach; the refusal.
    #[derive(Clone, Copy, Debug, PartialEq, Eq)]
    struct Tables(&'static [[i64; 2]], usize, &'static [Option<i64>], Refusal);

    // No next reach.
    const END: Option<i64> = None;

    const WHOLE: i64 = 1_000_000_000;

    const HALF: i64 = 500_000_000;

    // The tables' lengths disagree or are outside; the areas sum to too much.
    const LENGTHS: Refusal = Some((51, One(0)));

    const AREAS: Refusal = Some((54, One(0)));

    const ROWS: [Tables; 24] = [
        Tables(&[[1, 0]], 1, &[END], None),
        Tables(&[], 0, &[END], LENGTHS),
        Tables(&[], 1, &[END], LENGTHS),
        Tables(&[[1, 0]], 1, &[], LENGTHS),
        Tables(&[[1, 0], [1, 0]], 1, &[END], LENGTHS),
        Tables(&[[1, 0]], 2, &[END], LENGTHS),
        Tables(&[[1, 0]], 0, &[END], LENGTHS),
        Tables(&[[1, 0], [1, 1]], 2, &[Some(1), END], None),
        Tables(&[[1, 0], [1, 2]], 2, &[Some(1), END], Some((52, One(1)))),
        Tables(&[[1, 255], [1, 2]], 2, &[END, END], Some((52, One(0)))),
        Tables(&[[1, 0]], 1, &[Some(1)], Some((53, One(0)))),
        Tables(&[[1, 0]], 1, &[END, Some(1)], Some((53, One(1)))),
        Tables(&[[1, 0]], 1, &[END, END, Some(1)], Some((53, One(2)))),
        Tables(&[[1, 0]], 1, &[Some(2), END], Some((53, One(0)))),
        Tables(&[[1, 2]], 1, &[Some(2), Some(2), END], None),
        Tables(
            &[[1, 0]],
            1,
            &[Some(1), Some(254), Some(1)],
            Some((53, One(1))),
        ),
        Tables(&[[HALF, 0], [HALF, 0]], 2, &[END], None),
        Tables(&[[HALF, 0], [HALF + 1, 0]], 2, &[END], AREAS),
        Tables(&[[WHOLE, 0]], 1, &[END], None),
        Tables(&[[WHOLE, 0], [1, 0]], 2, &[END], AREAS),
        // Two at once: 51 and 52, 52 and 53, 52 and 54, 53 and 54.
        Tables(&[[1, 1]], 2, &[END], LENGTHS),
        Tables(&[[1, 1]], 1, &[Some(1)], Some((52, One(0)))),
        Tables(&[[WHOLE, 0], [1, 3]], 2, &[END], Some((52, One(1)))),
        Tables(&[[WHOLE, 0], [1, 0]], 2, &[Some(1)], Some((53, One(0)))),
    ];

    // A quarter of its 9 leaves.
    fn reach(next: Option<i64>) -> Result<Reach, Fail> {
        Reach::new(next, 0, 9, 250_000, 0, 0, 0).map_err(|_| Fail::new("no reach"))
    }

    fn site(area: i64, reach: i64) -> Result<Site, Fail> {
        Site::new(area, reach, 0).map_err(|_| Fail::new("no site"))
    }

    // The flow lists are cleared where the run is accepted, and else as before.
    fn left(accepted: bool, units: &[UnitFlow], reaches: &[ReachFlow]) -> bool {
        let (unit, reach) = if accepted {
            (UnitFlow::default(), ReachFlow::default())
        } else {
            (UNIT, REACH)
        };
        units.iter().all(|flow| *flow == unit) && reaches.iter().all(|flow| *flow == reach)
    }

    // Each unit has 3, and each reach 9.
    fn level<S: Store>(units: &[S], reaches: &[Reach]) -> bool {
        units.iter().all(|unit| unit.water() == Ok(3))
            && reaches.iter().all(|reach| reach.stored == 9)
    }

    // How many units and reaches there are, and the day count.
    fn counts(basin: &Basin<RockColumn>) -> [usize; 3] {
        [
            basin.units().len(),
            basin.reaches().len(),
            basin.day_count() as usize,
        ]
    }

    // A run of so many days, and a pour into and a draw from a reach.
    #[derive(Clone, Copy, Debug, PartialEq, Eq)]
    struct Calls {
        days: u64,
        reach: u64,
        poured: u64,
        drawn: u64,
    }

    // The calls are answered so, with lists of these lengths, which the run leaves as it must.
    fn answers(
        heap: Global,
        basin: &mut Basin<RockColumn>,
        calls: Calls,
        lengths: [usize; 2],
        wanted: [Refusal; 3],
    ) -> Result<bool, AllocError> {
        let [units, reaches] = lengths;
        let mut unit_list = vec![in heap; UNIT; units]?;
        let mut reach_list = vec![in heap; REACH; reaches]?;
        let answer = basin.run(
            &Steady { rain: 0 },
            calls.days,
            unit_list.as_mut_slice(),
            reach_list.as_mut_slice(),
        );
        let told = [
            refusal(answer.stop),
            refusal(basin.pour(calls.reach, calls.poured).err()),
            refusal(basin.draw(calls.reach, calls.drawn).err()),
        ];
        Ok(told == wanted && left(answer.stop.is_none(), &unit_list, &reach_list))
    }

    // All three calls are refused so, whatever else is wrong with them, and leave the basin and the lists;
    // or, where no refusal is named, none is.
    fn fits(
        heap: Global,
        sites: Vec<Site>,
        units: usize,
        reaches: Vec<Reach>,
        refused: Refusal,
    ) -> Result<bool, AllocError> {
        let lengths = [sites.len(), reaches.len()];
        let columns = vec![in heap; rock(3); units]?;
        let mut basin = Basin::new(sites, columns, reaches);
        let (days, reach, amount) = if refused.is_none() {
            (0, 0, 1)
        } else {
            (3_661, 256, u64::MAX)
        };
        let calls = Calls {
            days,
            reach,
            poured: amount,
            drawn: amount,
        };
        Ok(
            answers(heap, &mut basin, calls, lengths, [refused; 3])?
                && level(basin.units(), basin.reaches())
                && counts(&basin) == [units, lengths[1], 0],
        )
    }

    fn row_fits(heap: Global, row: Tables) -> Result<bool, Fail> {
        let Tables(pairs, units, nexts, refused) = row;
        let mut sites = Vec::new(heap);
        for [area, reach] in pairs {
            sites.push(site(*area, *reach)?)?;
        }
        let mut reaches = Vec::new(heap);
        for next in nexts {
            reaches.push(reach(*next)?)?;
        }
        Ok(fits(heap, sites, units, reaches, refused)?)
    }

    #[test]
    fn tables_that_fit(rt: HostRuntime) -> Result<(), Fail> {
        for (i, row) in ROWS.iter().enumerate() {
            assert!(rt; row_fits(rt.alloc(), *row)?, "{}", i);
        }
        Ok(())
    }

    fn wide_fits(
        heap: Global,
        sites: usize,
        reaches: usize,
        refused: Refusal,
    ) -> Result<bool, Fail> {
        let many = vec![in heap; site(976_562, 255)?; sites]?;
        let far = vec![in heap; reach(END)?; reaches]?;
        Ok(fits(heap, many, sites, far, refused)?)
    }

    #[test]
    fn widest(rt: HostRuntime) -> Result<(), Fail> {
        assert!(rt; wide_fits(rt.alloc(), 1_024, 256, None)?);
        assert!(rt; wide_fits(rt.alloc(), 1_025, 256, LENGTHS)?);
        assert!(rt; wide_fits(rt.alloc(), 1_024, 257, LENGTHS)?);
        Ok(())
    }

    // A run over lists of these lengths stops so; a pour and a draw have no list.
    fn lists_fit(heap: Global, lengths: [usize; 2], refused: Refusal) -> Result<bool, AllocError> {
        let mut basin = valley(heap, [0; 4], [rock(3), rock(3)], [9, 9])?;
        let calls = Calls {
            days: 0,
            reach: 0,
            poured: 2,
            drawn: 1,
        };
        Ok(
            answers(heap, &mut basin, calls, lengths, [refused, None, None])?
                && held(&basin) == [3, 3, 10, 9, 0],
        )
    }

    // Lengths of the flow lists, and the refusal.
    const LISTS: [([usize; 2], Refusal); 6] = [
        ([2, 2], None),
        ([1, 2], LENGTHS),
        ([3, 2], LENGTHS),
        ([2, 1], LENGTHS),
        ([2, 3], LENGTHS),
        ([0, 0], LENGTHS),
    ];

    #[test]
    fn flow_lists(rt: HostRuntime) -> Result<(), Fail> {
        for (lengths, refused) in LISTS {
            assert!(rt; lists_fit(rt.alloc(), lengths, refused)?, "{lengths:?}");
        }
        Ok(())
    }
}
