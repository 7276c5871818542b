// Normal years: their settings, and the months of their dates.
ghost use Rattle.std.specs.Prelude.{◌<◌};

#[cfg(test)]
mod tests {
    use crate::answers::tests::{of_field, refusal};
    use refusals::values::Values;
    use refusals::weather::WeatherFault;
    use sources::normal_year::NormalYear;
    use std::array;
    use std::test::Fail;
    use weather::day::Day;
    use weather::source::WeatherSource;

    // Stations, first day of the year, and the setting that is refused, if one is.
    const SETTINGS: [(i64, i64, Option<u64>); 12] = [
        (1, 1, None),
        (64, 365, None),
        (0, 1, Some(1)),
        (65, 1, Some(1)),
        (1, 0, Some(2)),
        (1, 366, Some(2)),
        (0, 0, Some(1)),
        (-1, 1, Some(1)),
        (1, -1, Some(2)),
        (i64::MIN, i64::MAX, Some(1)),
        (2, 2, None),
        (63, 364, None),
    ];

    // Index, date and month from the first of January on.
    const DATES: [(u64, u16, u32); 27] = [
        (0, 1, 0),
        (30, 31, 0),
        (31, 32, 1),
        (58, 59, 1),
        (59, 60, 2),
        (89, 90, 2),
        (90, 91, 3),
        (119, 120, 3),
        (120, 121, 4),
        (150, 151, 4),
        (151, 152, 5),
        (180, 181, 5),
        (181, 182, 6),
        (211, 212, 6),
        (212, 213, 7),
        (242, 243, 7),
        (243, 244, 8),
        (272, 273, 8),
        (273, 274, 9),
        (303, 304, 9),
        (304, 305, 10),
        (333, 334, 10),
        (334, 335, 11),
        (364, 365, 11),
        (365, 1, 0),
        (36_135, 1, 0),
        (36_499, 365, 11),
    ];

    // Each month's rain is its number, from 0.
    fn months() -> [Day; 12] {
        array::from_fn(
            |month|
                requires { month < 12 }
            {
                Day {
                    date: 100,
                    rain: month as u32,
                    highest: 0,
                    lowest: 0,
                    demand: 0,
                }
            },
        )
    }

    #[test]
    fn settings(rt: HostRuntime) {
        for (stations, first, refused) in SETTINGS {
            let made = NormalYear::new(months(), stations, first);
            assert_eq!(rt; refusal(made), of_field(12, refused), "{refused:?}");
        }
    }

    fn year(stations: i64, first: i64) -> Result<NormalYear, Fail> {
        NormalYear::new(months(), stations, first).map_err(|_| Fail::new("no year"))
    }

    // The date and the rain of a station's day.
    fn rain(year: &NormalYear, station: u64, index: u64) -> Result<(u16, u32), WeatherFault> {
        year.day(station, index).map(|day| (day.date, day.rain))
    }

    #[test]
    fn dates(rt: HostRuntime) -> Result<(), Fail> {
        let year = year(2, 1)?;
        assert_eq!(rt; (year.stations(), year.days()), (2, 36_500));
        for (index, date, depth) in DATES {
            assert_eq!(rt; year.date(index), Ok(date), "{index}");
            assert_eq!(rt; rain(&year, 1, index), Ok((date, depth)), "{index}");
        }
        Ok(())
    }

    // Station, index, and the number of the refusal, of 64 stations.
    const BEYOND: [(u64, u64, u32); 5] = [
        (64, 0, 31),
        (63, 36_500, 32),
        (64, 36_500, 31),
        (u64::MAX, u64::MAX, 31),
        (0, u64::MAX, 32),
    ];

    #[test]
    fn beyond(rt: HostRuntime) -> Result<(), Fail> {
        let year = year(64, 365)?;
        assert_eq!(rt; rain(&year, 0, 1), Ok((1, 0)));
        assert_eq!(rt; rain(&year, 63, 36_499), Ok((364, 11)));
        assert_eq!(rt; year.date(36_500), Err(WeatherFault::NoIndex(0, 36_500)));
        for (station, index, number) in BEYOND {
            let told = Some((number, Values::Two(station, index)));
            assert_eq!(rt; refusal(year.day(station, index)), told, "{station}");
        }
        Ok(())
    }
}
