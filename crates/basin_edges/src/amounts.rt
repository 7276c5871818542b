// Pours and draws: 55, 56, 59 and 60.
#[cfg(test)]
mod tests {
    use crate::answers::tests::{FULL, Refusal, refusal};
    use crate::valleys::tests::{held, rock, valley};
    use basin::basin::Basin;
    use columns::RockColumn;
    use refusals::basin::BasinFault;
    use refusals::values::Values::One;
    use std::alloc::{AllocError, Global};
    use std::test::Fail;

    // The greatest amount, and the most that reaches hold beside units with 2,000.
    const LOT: u64 = 1_000_000_000_000_000;

    const ROOM: u64 = FULL - 2_000;

    // Stored water before, the reach and the amount of the call, the refusal, and the stored water after.
    #[derive(Clone, Copy, Debug, PartialEq, Eq)]
    struct Amount([u64; 2], (u64, u64), Refusal, [u64; 2]);

    const POURS: [Amount; 12] = [
        Amount([5, 7], (0, LOT), None, [LOT + 5, 7]),
        Amount([5, 7], (0, LOT + 1), Some((56, One(0))), [5, 7]),
        Amount([5, 7], (1, 0), None, [5, 7]),
        Amount([5, 7], (2, 1), Some((55, One(2))), [5, 7]),
        Amount(
            [5, 7],
            (u64::MAX, LOT + 1),
            Some((55, One(u64::MAX))),
            [5, 7],
        ),
        Amount([ROOM - 10, 0], (1, 10), None, [ROOM - 10, 10]),
        Amount([ROOM - 10, 0], (1, 11), Some((59, One(0))), [ROOM - 10, 0]),
        Amount([ROOM, 0], (0, 0), None, [ROOM, 0]),
        Amount([ROOM, 0], (0, 1), Some((59, One(0))), [ROOM, 0]),
        Amount([ROOM, 0], (0, LOT + 1), Some((56, One(0))), [ROOM, 0]),
        Amount([ROOM, 1], (0, 0), Some((59, One(0))), [ROOM, 1]),
        Amount([u64::MAX; 2], (0, 1), Some((59, One(0))), [u64::MAX; 2]),
    ];

    const DRAWS: [Amount; 10] = [
        Amount([5, 7], (1, 7), None, [5, 0]),
        Amount([5, 7], (1, 8), Some((60, One(1))), [5, 7]),
        Amount([5, 7], (0, 6), Some((60, One(0))), [5, 7]),
        Amount([5, 7], (1, 0), None, [5, 7]),
        Amount([5, 7], (1, LOT + 1), Some((56, One(0))), [5, 7]),
        Amount([5, 7], (2, LOT + 1), Some((55, One(2))), [5, 7]),
        Amount([5, 7], (256, 1), Some((55, One(256))), [5, 7]),
        Amount([LOT + 5, 7], (0, LOT), None, [5, 7]),
        Amount([LOT + 5, 7], (0, LOT + 1), Some((56, One(0))), [LOT + 5, 7]),
        // A draw asks for no limit of the basin.
        Amount([ROOM, 9], (0, 1), None, [ROOM - 1, 9]),
    ];

    // The first row that the call does not answer and leave as it says.
    fn astray<F: Fn(&mut Basin<RockColumn>, u64, u64) -> Result<(), BasinFault>>(
        heap: Global,
        rows: &[Amount],
        act: F,
    ) -> Result<Option<usize>, AllocError>
        requires { F.IsAlwaysCallable act }
    {
        // No `position`: making a basin may want memory.
        for (i, row) in rows.iter().enumerate() {
            let Amount(before, (reach, amount), refused, [upper, lower]) = *row;
            let mut basin = valley(heap, [0; 4], [rock(1_000), rock(0)], before)?;
            let told = refusal(act(&mut basin, reach, amount).err());
            let wanted = [1_000, 0, upper as u128, lower as u128, 0];
            if told != refused || held(&basin) != wanted {
                return Ok(Some(i));
            }
        }
        Ok(None)
    }

    #[test]
    fn pours_and_draws(rt: HostRuntime) -> Result<(), Fail> {
        let pour = astray(
            rt.alloc(),
            &POURS,
            |basin, reach, amount| basin.pour(reach, amount),
        )?;
        assert_eq!(rt; pour, None);
        let draw = astray(
            rt.alloc(),
            &DRAWS,
            |basin, reach, amount| basin.draw(reach, amount),
        )?;
        assert_eq!(rt; draw, None);
        Ok(())
    }
}
