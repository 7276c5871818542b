// Balances that stop before their first day, on a day, and at the end.
#[cfg(test)]
mod tests {
    use balance::balance::Balance;
    use balance::table::run_table;
    use refusals::refused::Refused;
    use refusals::values::Values;
    use snow::pack::Pack;
    use snow::snowpack::Snowpack;
    use stores::aquifer::Aquifer;

    // One station of three days from day 365 on: 5 mm of rain, none, and a third that varies.
    const TABLE: [u8; 56] = [
        1, 0, 0, 0, 3, 0, 0, 0, 208, 7, 0, 0, 109, 1, 0, 0, 56, 0, 0, 0, // header
        136, 19, 0, 0, 232, 3, 144, 1, 0, 0, 0, 0, // 5,000 µm, 10 to 4 degrees
        0, 0, 0, 0, 232, 3, 144, 1, 0, 0, 0, 0, //
        64, 66, 15, 0, 232, 3, 144, 1, 0, 0, 0, 0, // 1,000,000 µm
    ];

    fn column(snow: i64, water: i64) -> Option<Snowpack<Aquifer>> {
        Some(Snowpack {
            pack: Pack::new(snow, 0, 0, 0, 1_000, 0).ok()?,
            lower: Aquifer::new(water, 0, 100_000_000, 0).ok()?,
        })
    }

    // The balance of these bytes over such a column.
    fn balance(bytes: &[u8], snow: i64, water: i64) -> Option<Balance> {
        let mut column = column(snow, water)?;
        Some(run_table(&mut column, bytes))
    }

    // The numbers of its lines.
    fn numbers(bytes: &[u8], snow: i64, water: i64) -> Option<[u64; 8]> {
        Some(
            balance(bytes, snow, water)?
                .lines()
                .map(|(_, number)| number),
        )
    }

    // The values of its stop.
    fn values(bytes: &[u8], snow: i64, water: i64) -> Option<Values> {
        Some(balance(bytes, snow, water)?.stop?.values())
    }

    #[test]
    fn all_days(rt: HostRuntime) {
        assert_eq!(rt;
            numbers(&TABLE, 0, 7),
            Some([3, 1_005_000, 0, 0, 0, 7, 1_005_007, 0])
        );
    }

    #[test]
    fn no_table(rt: HostRuntime) {
        assert_eq!(rt;
            numbers(&TABLE[0..0], 0, 7),
            Some([0, 0, 0, 0, 0, 0, 0, 21])
        );
        assert_eq!(rt;
            numbers(&TABLE[0..55], 0, 7),
            Some([0, 0, 0, 0, 0, 0, 0, 21])
        );
    }

    #[test]
    fn a_day_without_weather(rt: HostRuntime) {
        let mut missing = TABLE;
        missing[44..48].fill(255);
        assert_eq!(rt;
            numbers(&missing, 0, 7),
            Some([2, 5_000, 0, 0, 0, 7, 5_007, 33])
        );
        let mut outside = TABLE;
        outside[44] = 65;
        assert_eq!(rt;
            numbers(&outside, 0, 7),
            Some([2, 5_000, 0, 0, 0, 7, 5_007, 34])
        );
    }

    #[test]
    fn a_full_column(rt: HostRuntime) {
        assert_eq!(rt;
            numbers(&TABLE, 0, 99_000_000),
            Some([2, 5_000, 0, 0, 0, 99_000_000, 99_005_000, 41])
        );
        assert_eq!(rt;
            numbers(&TABLE, 0, 98_995_000),
            Some([3, 1_005_000, 0, 0, 0, 98_995_000, 100_000_000, 0])
        );
        assert_eq!(rt;
            numbers(&TABLE, 100_000_000, 1),
            Some([0, 0, 0, 0, 0, 0, 0, 41])
        );
    }

    #[test]
    fn values_of_a_stop(rt: HostRuntime) {
        assert_eq!(rt; values(&TABLE, 0, 7), None);
        assert_eq!(rt; values(&TABLE[0..55], 0, 7), Some(Values::One(55)));
        assert_eq!(rt; values(&TABLE, 0, 99_000_000), Some(Values::One(0)));
        let mut outside = TABLE;
        outside[44] = 65;
        assert_eq!(rt; values(&outside, 0, 7), Some(Values::Two(0, 2)));
    }
}
