// The header of a weather table: stations, days, first year, first date and length.
ghost use Rattle.std.specs.Prelude.{◌+◌, ◌≤◌, length};
ghost use Rattle.sources.specs.Header.{CountRead, HeaderRead};

use crate::bytes::word;
use crate::span::Span;
use refusals::table::{HeaderCount, TableFault};

// A count of the header, unless it is outside 1 to the greatest.
fn count(bytes: &[u8], place: usize, greatest: u32, field: HeaderCount) -> Result<u32, TableFault>
    requires { place + 4 ≤ length bytes.now }
    ensures { CountRead bytes.now place greatest field result }
{
    let count = word(bytes, place);
    if (1..=greatest).contains(&count) {
        Ok(count)
    } else {
        Err(TableFault::Header(field))
    }
}

impl Span {
    // The span of the weather table that these bytes are, or why they are none.
    pub fn read(bytes: &[u8]) -> Result<Span, TableFault>
        ensures { HeaderRead bytes.now result }
    {
        let length = bytes.len();
        if length < 20 || word(bytes, 16) as usize != length {
            return Err(TableFault::Length(length as u64));
        }
        let stations = count(bytes, 0, 64, HeaderCount::StationCount)?;
        let days = count(bytes, 4, 36_500, HeaderCount::DayCount)?;
        count(bytes, 8, 9_999, HeaderCount::FirstYear)?;
        let first = count(bytes, 12, 365, HeaderCount::FirstDate)?;
        if length != 20 + 12 * stations as usize * days as usize {
            return Err(TableFault::Size);
        }
        Ok(Span {
            stations: stations as u8,
            days: days as u16,
            first: first as u16,
        })
    }
}
