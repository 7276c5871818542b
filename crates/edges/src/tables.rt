// Weather tables: which bytes are one, and what its questions answer.
ghost use Rattle.std.specs.Prelude.{◌+◌, ◌≤◌, length};

#[cfg(test)]
mod tests {
    use crate::answers::tests::{Refusal, figures, refusal};
    use refusals::values::Values::{One, Two};
    use refusals::weather::WeatherFault;
    use sources::table::WeatherTable;
    use std::test::Fail;
    use weather::source::WeatherSource;

    // Stations, days, first year and first date; the refusal.
    const HEADERS: [([u32; 4], Refusal); 22] = [
        ([2, 1, 2000, 100], None),
        ([1, 2, 2000, 100], None),
        ([0, 1, 2000, 100], Some((22, One(1)))),
        ([64, 1, 2000, 100], Some((23, One(0)))),
        ([65, 1, 2000, 100], Some((22, One(1)))),
        ([2, 0, 2000, 100], Some((22, One(2)))),
        ([2, 36_500, 2000, 100], Some((23, One(0)))),
        ([2, 36_501, 2000, 100], Some((22, One(2)))),
        ([2, 1, 0, 100], Some((22, One(3)))),
        ([2, 1, 1, 100], None),
        ([2, 1, 9_999, 100], None),
        ([2, 1, 10_000, 100], Some((22, One(3)))),
        ([2, 1, 2000, 0], Some((22, One(4)))),
        ([2, 1, 2000, 1], None),
        ([2, 1, 2000, 365], None),
        ([2, 1, 2000, 366], Some((22, One(4)))),
        ([0, 0, 0, 0], Some((22, One(1)))),
        ([u32::MAX, u32::MAX, u32::MAX, u32::MAX], Some((22, One(1)))),
        ([63, 1, 2000, 100], Some((23, One(0)))),
        ([2, 36_499, 2000, 100], Some((23, One(0)))),
        ([2, 1, 2, 2], None),
        ([2, 1, 9_998, 364], None),
    ];

    fn put<const N: usize>(bytes: &mut [u8], place: usize, part: [u8; N])
        requires { place + N ≤ length bytes.old }
    {
        bytes[place..place + N].copy_from_slice(&part);
    }

    fn put_header(bytes: &mut [u8], counts: [u32; 4], size: u32)
        requires { 20 ≤ length bytes.old }
    {
        let [stations, days, year, date] = counts;
        put(bytes, 0, stations.to_le_bytes());
        put(bytes, 4, days.to_le_bytes());
        put(bytes, 8, year.to_le_bytes());
        put(bytes, 12, date.to_le_bytes());
        put(bytes, 16, size.to_le_bytes());
    }

    #[test]
    fn headers(rt: HostRuntime) {
        for (counts, refused) in HEADERS {
            let mut bytes = [0; 44];
            put_header(&mut bytes, counts, 44);
            let opened = WeatherTable::open(&bytes);
            assert_eq!(rt; refusal(opened), refused, "{refused:?}");
        }
    }

    // The length field, how many bytes there are, and the refusal.
    const LENGTHS: [(u32, usize, Refusal); 8] = [
        (44, 44, None),
        (43, 44, Some((21, One(44)))),
        (43, 43, Some((23, One(0)))),
        (20, 20, Some((23, One(0)))),
        (44, 20, Some((21, One(20)))),
        (19, 19, Some((21, One(19)))),
        (20, 21, Some((21, One(21)))),
        (0, 0, Some((21, One(0)))),
    ];

    #[test]
    fn lengths(rt: HostRuntime) {
        for (size, count, refused) in LENGTHS {
            let mut bytes = [0; 44];
            put_header(&mut bytes, [2, 1, 2000, 100], size);
            let opened = WeatherTable::open(&bytes[..count.min(44)]);
            assert_eq!(rt; refusal(opened), refused, "{count}");
        }
    }

    // A record in field order.
    #[derive(Clone, Copy, Debug, PartialEq, Eq)]
    struct Record(u32, i16, i16, u32);

    const CALM: Record = Record(5_000, 1_000, 400, 300);

    const MISSING: Record = Record(u32::MAX, 32_767, -32_768, u32::MAX);

    // A record, and the number of the refusal, if there is one.
    const RECORDS: [(Record, Option<u32>); 16] = [
        (CALM, None),
        (MISSING, Some(33)),
        (Record(u32::MAX, 0, 0, 0), Some(33)),
        (Record(u32::MAX - 1, 0, 0, 0), Some(34)),
        (Record(1_000_000, 6_000, 6_000, 50_000), None),
        (Record(0, -6_000, -6_000, 0), None),
        (Record(1_000_001, 0, 0, 0), Some(34)),
        (Record(0, 6_001, 0, 0), Some(34)),
        (Record(0, -6_001, -6_001, 0), Some(34)),
        (Record(0, 0, -6_001, 0), Some(34)),
        (Record(0, 0, 1, 0), Some(34)),
        (Record(0, -1, 0, 0), Some(34)),
        (Record(0, 0, 0, 50_001), Some(34)),
        (Record(0, 0, 0, u32::MAX), Some(34)),
        (Record(1, -5_999, -5_999, 1), None),
        (Record(999_999, 5_999, 5_998, 49_999), None),
    ];

    // Station, index, and the number of the refusal, of two stations of two days.
    const QUESTIONS: [(u64, u64, u32); 8] = [
        (0, 1, 33),
        (1, 0, 34),
        (2, 0, 31),
        (2, 1, 31),
        (1, 2, 32),
        (2, 2, 31),
        (u64::MAX, u64::MAX, 31),
        (0, u64::MAX, 32),
    ];

    fn put_record(bytes: &mut [u8], place: usize, record: Record)
        requires { place + 12 ≤ length bytes.old }
    {
        let Record(rain, highest, lowest, demand) = record;
        put(bytes, place, rain.to_le_bytes());
        put(bytes, place + 4, highest.to_le_bytes());
        put(bytes, place + 6, lowest.to_le_bytes());
        put(bytes, place + 8, demand.to_le_bytes());
    }

    // The figures of the record's day, of this date.
    fn day_of(record: Record, date: i64) -> [i64; 5] {
        let Record(rain, highest, lowest, demand) = record;
        [
            date,
            rain as i64,
            highest as i64,
            lowest as i64,
            demand as i64,
        ]
    }

    // A table of this record alone.
    fn one_day(record: Record) -> [u8; 32] {
        let mut bytes = [0; 32];
        put_header(&mut bytes, [1, 1, 2000, 365], 32);
        put_record(&mut bytes, 20, record);
        bytes
    }

    fn open(bytes: &[u8]) -> Result<WeatherTable, Fail> {
        WeatherTable::open(bytes).map_err(|_| Fail::new("no table"))
    }

    #[test]
    fn records(rt: HostRuntime) -> Result<(), Fail> {
        for (record, number) in RECORDS {
            let bytes = one_day(record);
            let told = open(&bytes)?.day(0, 0);
            let refused = number.map(|number| (number, Two(0, 0)));
            assert_eq!(rt; refusal(told), refused, "{record:?}");
            let day = refused.is_none().then_some(day_of(record, 365));
            assert_eq!(rt; told.ok().map(figures), day, "{record:?}");
        }
        Ok(())
    }

    // Two stations of two days, the last of the year and the first.
    fn four_days() -> [u8; 68] {
        let mut bytes = [0; 68];
        put_header(&mut bytes, [2, 2, 2000, 365], 68);
        put_record(&mut bytes, 20, CALM);
        put_record(&mut bytes, 32, MISSING);
        put_record(&mut bytes, 44, Record(0, 0, 1, 0));
        put_record(&mut bytes, 56, CALM);
        bytes
    }

    #[test]
    fn questions(rt: HostRuntime) -> Result<(), Fail> {
        let bytes = four_days();
        let table = open(&bytes)?;
        assert_eq!(rt; (table.stations(), table.days()), (2, 2));
        assert_eq!(rt; table.date(0), Ok(365));
        assert_eq!(rt; table.date(1), Ok(1));
        assert_eq!(rt; table.date(2), Err(WeatherFault::NoIndex(0, 2)));
        let rain = |station, index| table.day(station, index).map(|day| (day.date, day.rain));
        assert_eq!(rt; rain(0, 0), Ok((365, 5_000)));
        assert_eq!(rt; rain(1, 1), Ok((1, 5_000)));
        for (station, index, number) in QUESTIONS {
            let told = Some((number, Two(station, index)));
            assert_eq!(rt; refusal(table.day(station, index)), told, "{station}");
        }
        Ok(())
    }
}
