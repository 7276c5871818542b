// A balance as the lines that are printed of it.
ghost use Rattle.std.specs.Prelude.{◌≡◌, map};
ghost use Rattle.balance.specs.Course.{balance_lines, stop_number, stopped};

use crate::balance::{Balance, Stop};
use refusals::refused::Refused;

impl Balance {
    // Nothing but a stop.
    pub fn stopped(stop: Stop) -> Balance
        ensures { result ≡ stopped stop }
    {
        Balance {
            stop: Some(stop),
            ..Balance::default()
        }
    }

    // The number of the refusal that stopped it, 0 where nothing did.
    pub fn stop_number(&self) -> u32
        ensures { result ≡ stop_number self.now.stop }
    {
        self.stop.map_or(0, |stop| stop.number())
    }

    // Its figures, each with its name, in the order in which they are printed.
    pub fn lines(&self) -> [(&'static str, u64); 8]
        ensures { map (λ l. (l.0.now, l.1)) result ≡ balance_lines self.now }
    {
        [
            ("days", self.days),
            ("rain", self.sums.rain),
            ("side", self.sums.side),
            ("vapour", self.sums.vapour),
            ("deep", self.sums.deep),
            ("start", self.start),
            ("end", self.end),
            ("stop", self.stop_number() as u64),
        ]
    }
}
