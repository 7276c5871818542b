// Limits of a setting or a figure, as a caller hands it over.
ghost use Rattle.std.specs.Prelude.{◌≡◌, ◌≤ℤ◌, false, Err};
ghost use Rattle.std.specs.declared.num.TryFromIntError.{TryFromIntError};
ghost use Rattle.fixed.specs.Limits.{outside, Within, NaturalIn, IntegerIn, VolumeIn};

use std::num::TryFromIntError;

// A value as a number of a type that holds all within the limits, unless it is outside them.
fn within<T: TryFrom<i64, Error = TryFromIntError>>(
    value: i64,
    least: i64,
    greatest: i64,
) -> Option<T>
    requires { least ≤ℤ value → value ≤ℤ greatest → (e : TryFromIntError) → T.try_from_gives value (Err e) → ⊥ }
    ensures { Within T.try_from_gives least greatest value result }
{
    // By comparisons: behind a range's test the conversion tests once more.
    if value < least || value > greatest {
        return None;
    }
    T::try_from(value).ok()
}

// The three that others call: each promises its own kind of number.
// A value as a natural number, unless it is under the least or over the greatest.
pub fn natural(value: i64, least: u32, greatest: u32) -> Option<u32>
    ensures { NaturalIn least greatest value result }
{
    within::<u32>(value, least as i64, greatest as i64)
}

// A volume, unless the value is negative or over the greatest.
pub fn volume(value: i64, greatest: i64) -> Option<u64>
    ensures { VolumeIn greatest value result }
{
    within::<u64>(value, 0, greatest)
}

// A value as an integer, unless it is under the least or over the greatest.
pub fn integer(value: i64, least: i32, greatest: i32) -> Option<i32>
    ensures { IntegerIn least greatest value result }
{
    within::<i32>(value, least as i64, greatest as i64)
}
