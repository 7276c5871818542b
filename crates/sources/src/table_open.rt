// How a weather table is opened.
ghost use Rattle.sources.specs.Table.{Opened};

use crate::span::Span;
use crate::table::WeatherTable;
use refusals::table::TableFault;

impl<'a> WeatherTable<'a> {
    // The weather table that these bytes are, or why they are none.
    pub fn open(bytes: &'a [u8]) -> Result<WeatherTable<'a>, TableFault>
        ensures { Opened bytes.now result }
    {
        Ok(WeatherTable {
            bytes,
            span: Span::read(bytes)?,
        })
    }
}
