// Runs of no days, and runs refused before their first: 56, 58 and 59.
#[cfg(test)]
mod tests {
    use crate::answers::tests::{
        BASIN, FULL, Refusal, SEVENS, Told, UNIT_0, UNIT_1, ZEROS, refusal, run,
    };
    use crate::valleys::tests::{tally, valley};
    use basin::basin::Basin;
    use refusals::values::Values::One;
    use std::alloc::{AllocError, Global};
    use std::test::Fail;
    use stores::store::LIMIT;
    use strangers::half::Half;
    use strangers::steady::Steady;

    // The water of units and reaches, and the number of days; the stop of the run, and the refusal of a pour of
    // nothing; the basin's water as the run tells it.
    #[derive(Clone, Copy, Debug, PartialEq, Eq)]
    struct Start([u32; 2], [u64; 2], u64, Refusal, Refusal, u64);

    // The number of days is outside.
    const COUNT: Refusal = Some((56, One(0)));

    const ROWS: [Start; 13] = [
        Start([0, 0], [0, 0], 0, None, None, 0),
        Start([LIMIT; 2], [5, 7], 0, None, None, 500_000_012),
        Start([LIMIT + 1, 0], [0, 0], 0, UNIT_0, UNIT_0, 0),
        Start([0, LIMIT + 1], [0, 0], 1, UNIT_1, UNIT_1, 0),
        Start([u32::MAX; 2], [0, 0], 3_660, UNIT_0, UNIT_0, 0),
        Start([0, 0], [FULL, 0], 0, None, None, FULL),
        Start([1, 0], [FULL - 2, 0], 0, None, None, FULL),
        Start([1, 0], [FULL - 1, 0], 0, BASIN, BASIN, 0),
        Start([0, 0], [FULL, 1], 3_660, BASIN, BASIN, 0),
        Start([0, LIMIT + 1], [FULL, 1], 1, UNIT_1, UNIT_1, 0),
        Start([0, LIMIT + 1], [FULL, 1], 3_661, COUNT, UNIT_1, 0),
        Start([0, 0], [0, 0], 3_661, COUNT, None, 0),
        Start([0, 0], [0, 0], u64::MAX, COUNT, None, 0),
    ];

    // The water of both units, also over their limit, that of both reaches, and the day count.
    fn contents(basin: &Basin<Half>) -> [u128; 5] {
        tally(basin, |half| half.water as u128)
    }

    fn begins(heap: Global, row: Start) -> Result<bool, AllocError> {
        let Start(water, stored, n, stop, pour, held) = row;
        let units = water.map(|water| Half { water });
        let mut basin = valley(heap, [0; 4], units, stored)?;
        let before = contents(&basin);
        let told = run(&mut basin, &Steady { rain: 0 }, n);
        let poured = refusal(basin.pour(0, 0).err());
        let wanted = Told {
            figures: [0, 0, held as u128, held as u128],
            moved: if stop == COUNT { SEVENS } else { ZEROS },
            stop,
        };
        Ok(told == wanted && poured == pour && contents(&basin) == before)
    }

    #[test]
    fn limits_at_the_start(rt: HostRuntime) -> Result<(), Fail> {
        for (i, row) in ROWS.iter().enumerate() {
            assert!(rt; begins(rt.alloc(), *row)?, "{}", i);
        }
        Ok(())
    }
}
