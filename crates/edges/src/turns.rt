// Turns at the limit, columns that pass it, and days worked by hand.
#[cfg(test)]
mod tests {
    use crate::answers::tests::{Refusal, refusal};
    use profile::layer::Layer;
    use profile::profile::Profile;
    use refusals::values::Values;
    use snow::pack::Pack;
    use snow::snowpack::Snowpack;
    use stores::aquifer::Aquifer;
    use stores::flows::Flows;
    use stores::rock::Rock;
    use stores::store::Store;
    use surface::retention::Retention;
    use surface::surface::Surface;
    use weather::day::Day;

    // A day of 0 to 4 degrees.
    fn mild() -> Option<Day> {
        Day::new(1, 5_000, 400, 0, 1_000).ok()
    }

    const OVERFULL: Refusal = Some((41, Values::One(0)));

    // A turn with this inflow is refused, and the store keeps its water.
    fn overflows<S: Store + Drop>(mut store: S, inflow: u32, day: &Day) -> bool {
        let before = store.water();
        refusal(store.turn(inflow, 0, day)) == OVERFULL && store.water() == before
    }

    // A turn with this inflow is taken.
    fn takes<S: Store + Drop>(mut store: S, inflow: u32, day: &Day) -> bool {
        store.turn(inflow, 0, day).is_ok()
    }

    // A column that passes the limit refuses all that is asked of it.
    fn refuses_all<S: Store + Drop>(store: S, day: &Day) -> bool {
        refusal(store.water()) == OVERFULL
            && refusal(store.root_water()) == OVERFULL
            && overflows(store, 0, day)
    }

    // The store answers these flows and holds this water afterwards.
    fn leaves<S: Store + Drop>(
        mut store: S,
        inflow: u32,
        demand: u32,
        day: &Day,
        flows: [u32; 3],
        water: u32,
    ) -> bool {
        let [side, vapour, deep] = flows;
        store.turn(inflow, demand, day) == Ok(Flows { side, vapour, deep })
            && store.water() == Ok(water)
    }

    fn pack(water: i64) -> Option<Pack> {
        Pack::new(water, -100, 100, 50, 1_000, 3_380).ok()
    }

    fn aquifer(water: i64) -> Option<Aquifer> {
        Aquifer::new(water, 100_000, 100_000_000, 0).ok()
    }

    fn profile(water: i64, count: usize) -> Option<Profile<Rock>> {
        let mut profile = Profile::new(Rock);
        for _ in 0..count {
            profile
                .add(Layer::new(100_000, 300_000, water, 400_000, 100_000, 500_000).ok()?)
                .ok()?;
        }
        Some(profile)
    }

    fn bottoms_at_the_limit() -> Option<bool> {
        let day = mild()?;
        let full = aquifer(100_000_000)?;
        let nearly = aquifer(99_999_999)?;
        Some(
            takes(full, 0, &day)
                && overflows(full, 1, &day)
                && takes(nearly, 1, &day)
                && overflows(nearly, 2, &day)
                && takes(Rock, 100_000_000, &day)
                && overflows(Rock, 100_000_001, &day)
                && overflows(Rock, u32::MAX, &day),
        )
    }

    #[test]
    fn bottoms(rt: HostRuntime) {
        assert_eq!(rt; bottoms_at_the_limit(), Some(true));
    }

    fn layered_at_the_limit() -> Option<bool> {
        let day = mild()?;
        let snow = Snowpack {
            pack: pack(99_000_000)?,
            lower: aquifer(1_000_000)?,
        };
        let surface = Surface {
            retention: Retention::new(50_000, 1, 0, 0).ok()?,
            lower: aquifer(100_000_000)?,
        };
        let soil = profile(2_000_000, 10)?;
        Some(
            takes(snow, 0, &day)
                && overflows(snow, 1, &day)
                && takes(surface, 0, &day)
                && overflows(surface, 1, &day)
                && takes(soil, 80_000_000, &day)
                && overflows(soil, 80_000_001, &day),
        )
    }

    #[test]
    fn layers_at_the_limit(rt: HostRuntime) {
        assert_eq!(rt; layered_at_the_limit(), Some(true));
    }

    fn over_the_limit() -> Option<bool> {
        let day = mild()?;
        let snow = Snowpack {
            pack: pack(100_000_000)?,
            lower: aquifer(1)?,
        };
        let mut soil = Profile::new(aquifer(99_900_001)?);
        soil.add(Layer::new(0, 300_000, 100_000, 0, 0, 0).ok()?)
            .ok()?;
        Some(refuses_all(snow, &day) && refuses_all(soil, &day))
    }

    // Each part is within the limit, and the column is not.
    #[test]
    fn columns_over_the_limit(rt: HostRuntime) {
        assert_eq!(rt; over_the_limit(), Some(true));
    }

    fn worked_days() -> Option<bool> {
        let day = mild()?;
        let snow = Snowpack {
            pack: pack(20_000)?,
            lower: Rock,
        };
        let surface = Surface {
            retention: Retention::new(50_000, 1, 1_024, 0).ok()?,
            lower: aquifer(0)?,
        };
        Some(
            leaves(snow, 5_000, 1_000, &day, [13_450, 1_000, 0], 10_550)
                && leaves(surface, 50_000, 0, &day, [17_777, 0, 3_222], 29_001)
                && leaves(
                    profile(350_000, 1)?,
                    0,
                    4_000,
                    &day,
                    [25_000, 2_000, 0],
                    323_000,
                )
                && leaves(profile(350_000, 0)?, 7, 4_000, &day, [7, 0, 0], 0),
        )
    }

    #[test]
    fn worked(rt: HostRuntime) {
        assert_eq!(rt; worked_days(), Some(true));
    }

    fn eleven_layers() -> Option<bool> {
        let mut full = profile(200_000, 10)?;
        let layer = Layer::new(0, 1, 0, 0, 0, 0).ok()?;
        let refused = refusal(full.add(layer)) == Some((13, Values::One(10)));
        Some(refused && full.water() == Ok(2_000_000))
    }

    #[test]
    fn an_eleventh_layer(rt: HostRuntime) {
        assert_eq!(rt; eleven_layers(), Some(true));
    }
}
