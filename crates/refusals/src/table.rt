// Why bytes are no weather table.
ghost use Rattle.refusals.specs.Refusals.{table_refusal};

use crate::refused::Refused;
use crate::values::Values;

// A count of the header, in the header's order.
#[derive(Clone, Copy, Debug, PartialEq, Eq)]
pub enum HeaderCount {
    StationCount = 1,
    DayCount,
    FirstYear,
    FirstDate,
}

#[derive(Clone, Copy, Debug, PartialEq, Eq)]
pub enum TableFault {
    // Under twenty bytes, or the length field differs: how many bytes there are.
    Length(u64),
    Header(HeaderCount),
    // The length is not that of the stations and days.
    Size,
}

impl Refused for TableFault {
    ghost refusal = { table_refusal };

    // A variant that carries values has no discriminant to cast, so its number stands here.
    fn number(&self) -> u32 {
        match self {
            TableFault::Length(_) => 21,
            TableFault::Header(_) => 22,
            TableFault::Size => 23,
        }
    }

    fn values(&self) -> Values {
        Values::One(match self {
            TableFault::Length(bytes) => *bytes,
            TableFault::Header(count) => *count as u64,
            // There is nothing more to tell.
            TableFault::Size => 0,
        })
    }
}
