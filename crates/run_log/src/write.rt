// A log written into a buffer.
ghost use Rattle.std.specs.Prelude.{◌≡◌, length};
ghost use Rattle.run_log.specs.Log.{Logged, log_bytes};

use crate::cursor::Cursor;
use crate::figures::LogFigures;
use crate::line::line_length;
use refusals::log::BufferShort;

impl LogFigures {
    // How many bytes the log needs.
    pub fn length(&self) -> usize
        ensures { result ≡ length (log_bytes self.now) }
    {
        self.lines()
            .iter()
            .map(|(name, number)| line_length(name, *number))
            .sum()
    }

    // Writes the log to the start of the buffer, and answers its length.
    pub fn write(&self, buffer: &mut [u8]) -> Result<usize, BufferShort>
        ensures { Logged (log_bytes self.now) buffer.old buffer.new result }
    {
        let needed = self.length();
        if buffer.len() < needed {
            return Err(BufferShort {
                needed: needed as u64,
            });
        }
        let lines = self.lines();
        let mut log = Cursor::new(buffer);
        for (name, number) in lines {
            log.put_line(name, number);
        }
        Ok(needed)
    }
}

#[cfg(test)]
mod tests {
    use crate::figures::LogFigures;
    use refusals::log::BufferShort;

    const FIGURES: LogFigures = LogFigures {
        days: 2,
        readings: 4,
        rain: 50_000,
        stream: 37_500,
        vapour: 0,
        deep: 0,
        start: 0,
        end: 12_500,
        stop: 0,
    };

    const LOG: [u8; 83] =
        *b"days 2\nreadings 4\nrain 50000\nstream 37500\nvapour 0\ndeep 0\nstart 0\nend 12500\nstop 0\n";

    #[test]
    fn a_buffer_of_its_length(rt: HostRuntime) {
        let mut buffer = [7; 83];
        assert!(rt; matches!(FIGURES.write(&mut buffer), Ok(83)));
        assert!(rt; buffer == LOG);
    }

    #[test]
    fn a_byte_shorter(rt: HostRuntime) {
        let mut buffer = [7; 82];
        assert!(rt; matches!(FIGURES.write(&mut buffer), Err(BufferShort { needed: 83 })));
        assert!(rt; buffer == [7; 82]);
    }
}
