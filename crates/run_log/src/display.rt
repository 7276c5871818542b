// A log as text.
ghost use Rattle.std.specs.Prelude.{Some};
ghost use Rattle.run_log.specs.Log.{log_bytes};

use crate::figures::LogFigures;
use std::fmt;

impl fmt::Display for LogFigures {
    ghost output = { λ f. Some (log_bytes f) };

    fn fmt<W: fmt::Write>(&self, f: &mut fmt::Formatter<W>) -> fmt::Result {
        for (name, number) in self.lines() {
            writeln!(f, "{name} {number}")?;
        }
        Ok(())
    }
}
