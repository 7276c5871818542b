// A normal year: the same weather in each year, month by month, at every station.
ghost use Rattle.std.specs.Prelude.{◌≡◌};

use crate::span::Span;
use weather::day::Day;

#[derive(Clone, Copy, Debug, PartialEq, Eq)]
pub struct NormalYear {
    // A day of each month; its own date is not used.
    pub months: [Day; 12],
    pub span: Span,
    ghost whole: { span.days ≡ 36500 },
}
