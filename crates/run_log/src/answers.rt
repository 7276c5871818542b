// The figures of an answer, and of a table that was not opened.
ghost use Rattle.std.specs.Prelude.{◌≡◌};
ghost use Rattle.basin.specs.Law.{stop_number};
ghost use Rattle.refusals.specs.Refusals.{table_refusal};
ghost use Rattle.run_log.specs.Answers.{only_number, told_of};

use crate::figures::LogFigures;
use basin::answer::Answer;
use refusals::basin::BasinFault;
use refusals::refused::Refused;
use refusals::table::TableFault;

// The number of a stop, 0 where there is none.
fn number_of(stop: Option<BasinFault>) -> u32
    ensures { result ≡ stop_number stop }
{
    // One call of the library, as at a balance's stop: a function for both would be no shorter.
    stop.map_or(0, |fault| fault.number())
}

// What a run's answer tells.
impl From<Answer> for LogFigures {
    ghost from_gives = { λ answer figures. figures ≡ told_of answer };

    fn from(answer: Answer) -> LogFigures {
        LogFigures {
            days: answer.days,
            readings: answer.readings,
            rain: answer.sums.rain,
            stream: answer.sums.stream,
            vapour: answer.sums.vapour,
            deep: answer.sums.deep,
            start: answer.start,
            end: answer.end,
            stop: number_of(answer.stop),
        }
    }
}

// Eight zeros and the number of what refused the table.
impl From<TableFault> for LogFigures {
    ghost from_gives = { λ fault figures. figures ≡ only_number (table_refusal fault).number };

    fn from(fault: TableFault) -> LogFigures {
        LogFigures {
            stop: fault.number(),
            ..LogFigures::default()
        }
    }
}

impl LogFigures {
    // What a run's answer tells, of an answer that is lent.
    pub fn of(answer: &Answer) -> LogFigures
        ensures { result ≡ told_of answer.now }
    {
        LogFigures::from(*answer)
    }

    // Eight zeros and the number of what refused the table, of a refusal that is lent.
    pub fn unopened(fault: &TableFault) -> LogFigures
        ensures { result ≡ only_number (table_refusal fault.now).number }
    {
        LogFigures::from(*fault)
    }
}
