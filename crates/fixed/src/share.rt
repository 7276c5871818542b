// A share, in millionths of a whole.
ghost use Rattle.std.specs.Prelude.{◌≡◌, ◌≤◌};
ghost use Rattle.std.specs.Option.{option_map};
ghost use Rattle.fixed.specs.Limits.{NaturalIn};
ghost use Rattle.fixed.specs.Shares.{ShareLaws, part_of};

use crate::limits::natural;

pub const WHOLE: u32 = 1_000_000;

#[derive(Clone, Copy, Debug, PartialEq, Eq)]
pub struct Share {
    pub millionths: u32,
    ghost within: { millionths ≤ 1000000 },
}

impl Share {
    // A share of so many millionths, or none where that is negative or more than a whole.
    pub fn new(millionths: i64) -> Option<Share>
        ensures { NaturalIn 0 1000000 millionths (option_map (λ s. s.millionths) result) }
    {
        let millionths = natural(millionths, 0, WHOLE)?;
        Some(Share { millionths })
    }

    // The share of an amount, cut down.
    pub fn of(self, amount: u64) -> u64
        ensures value { result ≡ part_of amount self.millionths }
        ensures bound { result ≤ amount }
    {
        part(amount, self.millionths)
    }
}

// So many millionths of an amount; where the product passes 64 bits it is formed in 128.
fn part(amount: u64, share: u32) -> u64
    requires { share ≤ 1000000 }
    ensures value { result ≡ part_of amount share }
    ensures bound { result ≤ amount }
{
    // A match, as `map_or_else` would name the rare case first.
    match amount.checked_mul(share as u64) {
        Some(product) => product / WHOLE as u64,
        None => (amount as u128 * share as u128 / WHOLE as u128) as u64,
    }
}

// The laws of a share, whatever its rounding.
pub fn share_laws()
    ensures { ShareLaws }
{}
