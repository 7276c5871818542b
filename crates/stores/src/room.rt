// Whether a store and an inflow stay within the limit.
ghost use Rattle.std.specs.Prelude.{◌+◌};
ghost use Rattle.stores.specs.Meaning.{Told};

use crate::store::LIMIT;
use refusals::store::Overfull;

// The water of a store that holds so much of its own over a lower one, with an inflow, unless it passes the limit.
pub fn room(own: u64, lower: u32, inflow: u32) -> Result<u32, Overfull>
    ensures { Told (own + lower + inflow) (own + lower + inflow) result }
{
    own.checked_add(lower as u64 + inflow as u64)
        .filter(|water| *water <= LIMIT as u64)
        .map(|water| water as u32)
        .ok_or(Overfull)
}
