// Days of weather at the limits of each figure.
#[cfg(test)]
mod tests {
    use crate::answers::tests::{figures, of_field, refusal};
    use weather::day::Day;

    // Figures in field order, and the field that is refused, if one is.
    const CASES: [([i64; 5], Option<u64>); 26] = [
        ([1, 0, 0, 0, 0], None),
        ([0, 0, 0, 0, 0], Some(1)),
        ([365, 0, 0, 0, 0], None),
        ([366, 0, 0, 0, 0], Some(1)),
        ([1, -1, 0, 0, 0], Some(2)),
        ([1, 1_000_000, 0, 0, 0], None),
        ([1, 1_000_001, 0, 0, 0], Some(2)),
        ([1, 0, -6_000, -6_000, 0], None),
        ([1, 0, -6_001, -6_001, 0], Some(3)),
        ([1, 0, 6_000, 0, 0], None),
        ([1, 0, 6_001, 0, 0], Some(3)),
        ([1, 0, 0, -6_000, 0], None),
        ([1, 0, 0, -6_001, 0], Some(4)),
        ([1, 0, 6_000, 6_000, 0], None),
        ([1, 0, 6_000, 6_001, 0], Some(4)),
        ([1, 0, 10, 10, 0], None),
        ([1, 0, 10, 11, 0], Some(4)),
        ([1, 0, 0, 0, -1], Some(5)),
        ([1, 0, 0, 0, 50_000], None),
        ([1, 0, 0, 0, 50_001], Some(5)),
        ([0, -1, 6_001, -6_001, -1], Some(1)),
        ([1, -1, 6_001, -6_001, -1], Some(2)),
        ([1, 0, 6_001, -6_001, -1], Some(3)),
        ([i64::MIN, i64::MAX, i64::MAX, i64::MIN, i64::MAX], Some(1)),
        ([2, 1, -5_999, -5_999, 1], None),
        ([364, 999_999, 5_999, 5_998, 49_999], None),
    ];

    // The figures make their day, or the field is refused.
    #[test]
    fn limits_of_a_day(rt: HostRuntime) {
        for (wanted, refused) in CASES {
            let [date, rain, highest, lowest, demand] = wanted;
            let made = Day::new(date, rain, highest, lowest, demand);
            assert_eq!(rt; refusal(made), of_field(11, refused), "{refused:?}");
            assert_eq!(rt;
                made.ok().map(figures),
                refused.is_none().then_some(wanted),
                "{refused:?}"
            );
        }
    }
}
