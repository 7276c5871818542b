// Years of 365 days. Nothing else knows how dates follow one another.
ghost use Rattle.std.specs.Prelude.{◌≡◌, ◌<◌, count_by, nat_lt};
ghost use Rattle.sources.specs.Calendar.{date_at, month_of};

// The last day of each month but December.
const MONTH_ENDS: [u16; 11] = [31, 59, 90, 120, 151, 181, 212, 243, 273, 304, 334];

// The day of the year of an index, where index 0 is the first.
pub fn date_at(first: u16, index: u64) -> u16
    ensures { result ≡ date_at first index }
{
    ((first.saturating_sub(1) as u64 + index % 365) % 365 + 1) as u16
}

// How many of these days lie before a date. A sum: `filter` and `count` make a loop with branches, three times as slow.
fn ended_before(ends: &[u16], date: u16) -> usize
    ensures { result ≡ count_by (λ end. nat_lt end date) ends.now }
{
    ends.iter().map(|end| usize::from(*end < date)).sum()
}

// The month of a day of the year, from 0.
pub fn month_of(date: u16) -> usize
    ensures value { result ≡ month_of date }
    ensures bound { result < 12 }
{
    ended_before(&MONTH_ENDS, date)
}
