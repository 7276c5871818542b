// What a run answers and leaves, as plain numbers.
#[cfg(test)]
pub mod tests {
    use basin::basin::Basin;
    use network::flows::{ReachFlow, UnitFlow};
    use refusals::basin::BasinFault;
    use refusals::refused::Refused;
    use refusals::values::Values;
    use stores::store::Store;
    use weather::source::WeatherSource;

    // Three short words stand in other test crates too, since none sees another's tests: a refusal, a site, a balance.
    // The number and the values of a refusal, if there is one.
    pub type Refusal = Option<(u32, Values)>;

    pub fn refusal(fault: Option<BasinFault>) -> Refusal {
        fault.map(|fault| (fault.number(), fault.values()))
    }

    // A unit passes its limit, or the basin does.
    pub const UNIT_0: Refusal = Some((58, Values::One(0)));

    pub const UNIT_1: Refusal = Some((58, Values::One(1)));

    pub const BASIN: Refusal = Some((59, Values::One(0)));

    // The limit of a basin, in millilitres.
    pub const FULL: u64 = 1_000_000_000_000_000_000;

    #[derive(Clone, Copy, Debug, PartialEq, Eq)]
    pub struct Told {
        // Days, readings, start and end.
        pub figures: [u128; 4],
        // The sums, and then the records of both units and of both reaches.
        pub moved: [[u128; 4]; 5],
        pub stop: Refusal,
    }

    // What stays and what left is what was there and what came.
    pub fn balances(told: &Told) -> bool {
        let [_, _, start, end] = told.figures;
        let [rain, stream, vapour, deep] = told.moved[0];
        let left = stream.wrapping_add(vapour).wrapping_add(deep);
        end.wrapping_add(left) == start.wrapping_add(rain)
    }

    // Records of 7s.
    pub const UNIT: UnitFlow = UnitFlow {
        rain: 7,
        side: 7,
        vapour: 7,
        deep: 7,
    };

    pub const REACH: ReachFlow = ReachFlow {
        inflow: 7,
        outflow: 7,
        vapour: 7,
        deep: 7,
    };

    // What a run leaves that is refused with 51 to 56: lists of 7s as before.
    pub const SEVENS: [[u128; 4]; 5] = [[0; 4], [7; 4], [7; 4], [7; 4], [7; 4]];

    // What a run leaves that moves nothing.
    pub const ZEROS: [[u128; 4]; 5] = [[0; 4]; 5];

    fn unit(f: UnitFlow) -> [u128; 4] {
        [
            f.rain as u128,
            f.side as u128,
            f.vapour as u128,
            f.deep as u128,
        ]
    }

    fn reach(f: ReachFlow) -> [u128; 4] {
        [f.inflow, f.outflow, f.vapour, f.deep]
    }

    // A run of a basin of two sites and two reaches over lists of 7s.
    pub fn run<S: Store + Copy, W: WeatherSource>(
        basin: &mut Basin<S>,
        source: &W,
        n: u64,
    ) -> Told {
        let mut units = [UNIT; 2];
        let mut reaches = [REACH; 2];
        let answer = basin.run(source, n, &mut units, &mut reaches);
        let sums = answer.sums;
        Told {
            figures: [
                answer.days as u128,
                answer.readings as u128,
                answer.start,
                answer.end,
            ],
            moved: [
                [sums.rain, sums.stream, sums.vapour, sums.deep],
                unit(units[0]),
                unit(units[1]),
                reach(reaches[0]),
                reach(reaches[1]),
            ],
            stop: refusal(answer.stop),
        }
    }
}
