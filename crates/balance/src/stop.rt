// A stop is the refusal that it is made from.
ghost use Rattle.std.specs.Prelude.{◌≡◌};
ghost use Rattle.balance.specs.Course.{stop_refusal};
ghost use Rattle.balance.specs.declared.balance.Stop.TheVariants.{Store, Table, Weather};

use crate::balance::Stop;
use refusals::refused::Refused;
use refusals::store::Overfull;
use refusals::table::TableFault;
use refusals::values::Values;
use refusals::weather::WeatherFault;

impl From<TableFault> for Stop {
    ghost from_gives = { λ fault stop. stop ≡ Table fault };

    fn from(fault: TableFault) -> Stop {
        Stop::Table(fault)
    }
}

impl From<WeatherFault> for Stop {
    ghost from_gives = { λ fault stop. stop ≡ Weather fault };

    fn from(fault: WeatherFault) -> Stop {
        Stop::Weather(fault)
    }
}

impl From<Overfull> for Stop {
    ghost from_gives = { λ full stop. stop ≡ Store full };

    fn from(full: Overfull) -> Stop {
        Stop::Store(full)
    }
}

impl Refused for Stop {
    ghost refusal = { stop_refusal };

    fn number(&self) -> u32 {
        match self {
            Stop::Table(refused) => refused.number(),
            Stop::Weather(refused) => refused.number(),
            Stop::Store(refused) => refused.number(),
        }
    }

    fn values(&self) -> Values {
        match self {
            Stop::Table(refused) => refused.values(),
            Stop::Weather(refused) => refused.values(),
            Stop::Store(refused) => refused.values(),
        }
    }
}
