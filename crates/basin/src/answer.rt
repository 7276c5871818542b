// What a run answers.
ghost use Rattle.std.specs.Prelude.{◌≡◌};
ghost use Rattle.basin.specs.Run.{SumsFit, plus};

use refusals::basin::BasinFault;
use std::ops::Add;

// What the accepted days moved together, in millilitres. It shares no type with the records: it has other figures.
#[derive(Clone, Copy, Debug, PartialEq, Eq, Default)]
pub struct Sums {
    pub rain: u128,
    // Outflow of the reaches without a next one.
    pub stream: u128,
    // Of units and reaches together.
    pub vapour: u128,
    pub deep: u128,
}

// Nothing moved: a constant as those of the records are, which a list can be made of.
pub const NO_SUMS: Sums = Sums {
    rain: 0,
    stream: 0,
    vapour: 0,
    deep: 0,
};

// What moved on some days and on others together.
impl Add for Sums {
    type Output = Sums;

    ghost can_add = { SumsFit };

    ghost add_gives = { λ x y r. r ≡ plus x y };

    fn add(self, more: Sums) -> Sums {
        Sums {
            rain: self.rain + more.rain,
            stream: self.stream + more.stream,
            vapour: self.vapour + more.vapour,
            deep: self.deep + more.deep,
        }
    }
}

#[derive(Clone, Copy, Debug, PartialEq, Eq, Default)]
pub struct Answer {
    // Days accepted.
    pub days: u64,
    // Days of weather asked of the source.
    pub readings: u64,
    pub sums: Sums,
    // The basin's water before and after, in millilitres.
    pub start: u128,
    pub end: u128,
    // Why the run ended before its last day, if it did.
    pub stop: Option<BasinFault>,
}
