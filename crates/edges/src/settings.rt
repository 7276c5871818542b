// Every setting of every part at, one under and one over its limits.
#[cfg(test)]
mod tests {
    use crate::answers::tests::{of_field, refusal};
    use profile::layer::Layer;
    use refusals::refused::Refused;
    use snow::pack::Pack;
    use stores::aquifer::Aquifer;
    use surface::retention::Retention;

    // The first row that is not answered as it says.
    fn astray<S: Copy, T: Drop, R: Refused + Drop, F: Fn(S) -> Result<T, R>>(
        rows: &[(S, Option<u64>)],
        make: F,
    ) -> Option<usize>
        requires { F.IsAlwaysCallable make }
    {
        rows.iter().position(|(settings, refused)| refusal(make(*settings))
            != of_field(12, *refused))
    }

    // Settings in number order, and the one that is refused, if one is.
    const AQUIFERS: [([i64; 4], Option<u64>); 16] = [
        ([0, 0, 0, 0], None),
        ([-1, 0, 0, 0], Some(1)),
        ([100_000_000, 0, 0, 0], None),
        ([100_000_001, 0, 0, 0], Some(1)),
        ([0, -1, 0, 0], Some(2)),
        ([0, 1_000_000, 0, 0], None),
        ([0, 1_000_001, 0, 0], Some(2)),
        ([0, 0, -1, 0], Some(3)),
        ([0, 0, 100_000_000, 0], None),
        ([0, 0, 100_000_001, 0], Some(3)),
        ([0, 0, 0, -1], Some(4)),
        ([0, 0, 0, 1_000_000], None),
        ([0, 0, 0, 1_000_001], Some(4)),
        ([i64::MIN, i64::MAX, i64::MIN, i64::MAX], Some(1)),
        ([1, 1, 1, 1], None),
        ([99_999_999, 999_999, 99_999_999, 999_999], None),
    ];

    #[test]
    fn aquifers(rt: HostRuntime) {
        assert_eq!(rt;
            astray(
                &AQUIFERS,
                |[water, deep, threshold, flow]| Aquifer::new(water, deep, threshold, flow)
            ),
            None
        );
    }

    const SURFACES: [([i64; 4], Option<u64>); 16] = [
        ([0, 1, 0, 0], None),
        ([-1, 1, 0, 0], Some(1)),
        ([1_000_000, 1, 0, 0], None),
        ([1_000_001, 1, 0, 0], Some(1)),
        ([0, 0, 0, 0], Some(2)),
        ([0, 100_000_000, 0, 0], None),
        ([0, 100_000_001, 0, 0], Some(2)),
        ([0, 1, -16_383, 0], None),
        ([0, 1, -16_384, 0], Some(3)),
        ([0, 1, 16_383, 0], None),
        ([0, 1, 16_384, 0], Some(3)),
        ([0, 1, 0, -1], Some(4)),
        ([0, 1, 0, 32_767], None),
        ([0, 1, 0, 32_768], Some(4)),
        ([1, 2, -16_382, 1], None),
        ([999_999, 99_999_999, 16_382, 32_766], None),
    ];

    #[test]
    fn surfaces(rt: HostRuntime) {
        assert_eq!(rt;
            astray(
                &SURFACES,
                |[greatest, full, c1, c2]| Retention::new(greatest, full, c1, c2)
            ),
            None
        );
    }

    const PACKS: [([i64; 6], Option<u64>); 24] = [
        ([0, 0, 0, 0, 0, 0], None),
        ([-1, 0, 0, 0, 0, 0], Some(1)),
        ([100_000_000, 0, 0, 0, 0, 0], None),
        ([100_000_001, 0, 0, 0, 0, 0], Some(1)),
        ([0, -6_000, 0, 0, 0, 0], None),
        ([0, -6_001, 0, 0, 0, 0], Some(2)),
        ([0, 6_000, 0, 0, 0, 0], None),
        ([0, 6_001, 0, 0, 0, 0], Some(2)),
        ([0, 0, -500, 0, 0, 0], None),
        ([0, 0, -501, 0, 0, 0], Some(3)),
        ([0, 0, 500, 0, 0, 0], None),
        ([0, 0, 501, 0, 0, 0], Some(3)),
        ([0, 0, 0, -500, 0, 0], None),
        ([0, 0, 0, -501, 0, 0], Some(4)),
        ([0, 0, 0, 500, 0, 0], None),
        ([0, 0, 0, 501, 0, 0], Some(4)),
        ([0, 0, 0, 0, -1, 0], Some(5)),
        ([0, 0, 0, 0, 1_000, 0], None),
        ([0, 0, 0, 0, 1_001, 0], Some(5)),
        ([0, 0, 0, 0, 0, -1], Some(6)),
        ([0, 0, 0, 0, 0, 20_000], None),
        ([0, 0, 0, 0, 0, 20_001], Some(6)),
        ([1, -5_999, -499, -499, 1, 1], None),
        ([99_999_999, 5_999, 499, 499, 999, 19_999], None),
    ];

    #[test]
    fn packs(rt: HostRuntime) {
        assert_eq!(rt;
            astray(
                &PACKS,
                |[water, pack, fall, melt, lag, factor]| Pack::new(
                    water, pack, fall, melt, lag, factor,
                )
            ),
            None
        );
    }

    const LAYERS: [([i64; 6], Option<u64>); 27] = [
        ([0, 1, 0, 0, 0, 0], None),
        ([-1, 1, 0, 0, 0, 0], Some(1)),
        ([999_999, 1_000_000, 999_999, 0, 0, 0], None),
        ([1_000_000, 1_000_001, 1_000_000, 0, 0, 0], Some(1)),
        ([100, 100, 100, 0, 0, 0], Some(2)),
        ([100, 101, 100, 0, 0, 0], None),
        ([0, 1_000_001, 0, 0, 0, 0], Some(2)),
        ([100, 200, 99, 0, 0, 0], Some(3)),
        ([0, 1, -1, 0, 0, 0], Some(3)),
        ([0, 1, 2_000_000, 0, 0, 0], None),
        ([0, 1, 2_000_001, 0, 0, 0], Some(3)),
        ([0, 1, 0, -1, 0, 0], Some(4)),
        ([0, 1, 0, 1_000_000, 0, 0], None),
        ([0, 1, 0, 1_000_001, 0, 0], Some(4)),
        ([0, 1, 0, 0, -1, 0], Some(5)),
        ([0, 1, 0, 0, 1_000_000, 0], None),
        ([0, 1, 0, 0, 1_000_001, 0], Some(5)),
        ([0, 1, 0, 400_000, 600_000, 0], None),
        ([0, 1, 0, 400_000, 600_001, 0], Some(5)),
        ([0, 1, 0, 0, 0, -1], Some(6)),
        ([0, 1, 0, 0, 0, 1_000_000], None),
        ([0, 1, 0, 0, 0, 1_000_001], Some(6)),
        ([0, 1, 0, 400_000, 600_001, -1], Some(5)),
        ([1, 3, 2, 1, 1, 1], None),
        ([999_998, 999_999, 1_999_999, 0, 999_999, 999_999], None),
        ([0, 1, 1, 999_999, 0, 0], None),
        ([0, 1, 0, 400_000, 599_999, 0], None),
    ];

    #[test]
    fn layers(rt: HostRuntime) {
        assert_eq!(rt;
            astray(
                &LAYERS,
                |[wilting, capacity, water, down, aside, want]| Layer::new(
                    wilting, capacity, water, down, aside, want,
                )
            ),
            None
        );
    }
}
