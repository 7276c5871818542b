// A weather table over bytes that stay the caller's.
ghost use Rattle.sources.specs.Header.{Headed, Stamped};

use crate::span::Span;

#[derive(Clone, Copy, Debug, PartialEq, Eq)]
pub struct WeatherTable<'a> {
    pub bytes: &'a [u8],
    pub span: Span,
    ghost headed: { Headed bytes.now span },
    ghost stamped: { Stamped bytes.now },
}
