// The figures with their names, in the order of the log.
ghost use Rattle.std.specs.Prelude.{◌≡◌, map};
ghost use Rattle.run_log.specs.Log.{log_lines};

use crate::figures::LogFigures;

impl LogFigures {
    pub(crate) fn lines(&self) -> [(&'static str, u128); 9]
        ensures { map (λ l. (l.0.now, l.1)) result ≡ log_lines self.now }
    {
        [
            ("days", self.days as u128),
            ("readings", self.readings as u128),
            ("rain", self.rain),
            ("stream", self.stream),
            ("vapour", self.vapour),
            ("deep", self.deep),
            ("start", self.start),
            ("end", self.end),
            ("stop", self.stop as u128),
        ]
    }
}
