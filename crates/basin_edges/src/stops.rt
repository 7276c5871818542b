// Runs that stop on a day: 57, 58 and 59; and the same run again.
#[cfg(test)]
mod tests {
    use crate::answers::tests::{BASIN, FULL, Refusal, Told, UNIT_0, UNIT_1, ZEROS, balances, run};
    use crate::valleys::tests::{held, valley};
    use refusals::values::Values::Four;
    use sources::table::WeatherTable;
    use std::alloc::{AllocError, Global};
    use std::test::Fail;
    use strangers::half::Half;
    use strangers::steady::Steady;
    use weather::source::WeatherSource;

    // The stations of sites and reaches, the water of units and reaches, and the number of days; the days that are
    // accepted, the readings, and the stop.
    #[derive(Clone, Copy, Debug, PartialEq, Eq)]
    struct Stop([u8; 4], [u32; 2], [u64; 2], u64, u128, u128, Refusal);

    const HOME: [u8; 4] = [0; 4];

    // The second station, at a reach alone.
    const UPPER: [u8; 4] = [0, 0, 1, 0];

    const LOWER: [u8; 4] = [0, 0, 0, 1];

    const ON: Refusal = None;

    // The source has no such day.
    const NO_DAY: Refusal = Some((57, Four(0, 32, 0, 10)));

    // It has no such station: for a site, and for a reach.
    const SITE_0: Refusal = Some((57, Four(0, 31, 1, 0)));

    const SITE_1: Refusal = Some((57, Four(1, 31, 1, 0)));

    const REACH_0: Refusal = Some((57, Four(1_024, 31, 1, 0)));

    const REACH_1: Refusal = Some((57, Four(1_025, 31, 1, 0)));

    // The second unit passes its limit with a day's rain; beside it and these reaches there is room for 300.
    const TIGHT: [u32; 2] = [0, 99_999_900];

    const BRIM: [u64; 2] = [FULL - 300_000_000, 0];

    // Under 1,000 micrometres of rain a day, of which a unit keeps 500; the rain is 5,000 in all.
    const STEADY: [Stop; 17] = [
        Stop(HOME, [0, 0], [0, 0], 10, 10, 40, ON),
        Stop(HOME, [0, 0], [0, 0], 11, 10, 41, NO_DAY),
        Stop(HOME, [0, 0], [9, 9], 3_660, 10, 41, NO_DAY),
        Stop([1; 4], [0, 0], [0, 0], 1, 0, 1, SITE_0),
        Stop([0, 1, 0, 0], [0, 0], [0, 0], 1, 0, 2, SITE_1),
        Stop(UPPER, [0, 0], [0, 0], 1, 0, 3, REACH_0),
        Stop(LOWER, [0, 0], [0, 0], 1, 0, 4, REACH_1),
        Stop(LOWER, [0, 0], [0, 0], 0, 0, 0, ON),
        Stop(HOME, [0, 99_998_400], [0, 0], 5, 2, 12, UNIT_1),
        Stop(HOME, [99_999_000, 0], [0, 0], 1, 1, 4, ON),
        Stop(HOME, [99_999_001; 2], [0, 0], 1, 0, 4, UNIT_0),
        Stop(HOME, [0, 0], [FULL - 5_000, 0], 1, 1, 4, ON),
        Stop(HOME, [0, 0], [0, FULL - 4_999], 1, 0, 4, BASIN),
        Stop(HOME, [1, 1], [FULL - 5, 0], 9, 0, 4, BASIN),
        // Two at once: 58 and 59, 57 and 58, 57 and 59.
        Stop(HOME, TIGHT, BRIM, 1, 0, 4, UNIT_1),
        Stop(LOWER, TIGHT, [0, 0], 1, 0, 4, REACH_1),
        Stop(UPPER, [0, 0], [FULL, 0], 1, 0, 3, REACH_0),
    ];

    // The second station has no third day: for a site, and for both reaches.
    const GAP_SITE: Refusal = Some((57, Four(1, 33, 1, 2)));

    const GAP_UPPER: Refusal = Some((57, Four(1_024, 33, 1, 2)));

    const GAP_LOWER: Refusal = Some((57, Four(1_025, 33, 1, 2)));

    // The table ends.
    const TABLE_END: Refusal = Some((57, Four(0, 32, 0, 3)));

    // The second station's third day is outside its limits.
    const BEYOND: Refusal = Some((57, Four(1, 34, 1, 2)));

    // A table of two stations and three days without rain; the second station has no third day.
    const TABLE: [Stop; 4] = [
        Stop([0, 1, 0, 0], [9, 9], [9, 0], 5, 2, 10, GAP_SITE),
        Stop(UPPER, [9, 9], [9, 0], 5, 2, 11, GAP_UPPER),
        Stop(LOWER, [9, 9], [9, 0], 3, 2, 12, GAP_LOWER),
        Stop(HOME, [9, 9], [9, 0], 5, 3, 13, TABLE_END),
    ];

    // Its third day is outside its limits.
    const OUTSIDE: Stop = Stop([0, 1, 0, 1], [9, 9], [9, 0], 5, 2, 10, BEYOND);

    // The run comes to this; one that stopped stops again at once, asks the same again, and changes nothing.
    fn stops<W: WeatherSource>(heap: Global, source: &W, row: Stop) -> Result<bool, AllocError> {
        let Stop(stations, water, stored, n, days, readings, stop) = row;
        let units = water.map(|water| Half { water });
        let mut basin = valley(heap, stations, units, stored)?;
        let told = run(&mut basin, source, n);
        let after = held(&basin);
        let again = run(&mut basin, source, n);
        let [accepted, asked, _, end] = told.figures;
        let more = readings.wrapping_sub(days.wrapping_mul(4));
        let still = Told {
            figures: [0, more, end, end],
            moved: ZEROS,
            stop,
        };
        let same = again == still && held(&basin) == after;
        Ok(
            [accepted, asked, after[4]] == [days, readings, days]
                && told.stop == stop
                && balances(&told)
                && (stop == ON || same),
        )
    }

    #[test]
    fn steady_weather(rt: HostRuntime) -> Result<(), Fail> {
        for (i, row) in STEADY.iter().enumerate() {
            assert!(rt; stops(rt.alloc(), &Steady { rain: 1_000 }, *row)?, "{}", i);
        }
        Ok(())
    }

    // The table, with the rain of the second station's third day.
    fn three_days(rain: u32) -> [u8; 92] {
        let mut bytes = [0; 92];
        bytes[0] = 2;
        bytes[4] = 3;
        bytes[8] = 1;
        bytes[12] = 1;
        bytes[16] = 92;
        bytes[80..84].copy_from_slice(&rain.to_le_bytes());
        bytes
    }

    fn under_table(heap: Global, rain: u32, row: Stop) -> Result<bool, AllocError> {
        let bytes = three_days(rain);
        let Ok(table) = WeatherTable::open(&bytes) else {
            return Ok(false);
        };
        stops(heap, &table, row)
    }

    #[test]
    fn a_table(rt: HostRuntime) -> Result<(), Fail> {
        for (i, row) in TABLE.iter().enumerate() {
            assert!(rt; under_table(rt.alloc(), u32::MAX, *row)?, "{}", i);
        }
        assert!(rt; under_table(rt.alloc(), 1_000_001, OUTSIDE)?);
        Ok(())
    }
}
