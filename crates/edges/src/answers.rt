// What a call answers, by the number and the values of a refusal.
#[cfg(test)]
pub mod tests {
    use refusals::refused::Refused;
    use refusals::values::Values;
    use weather::day::Day;

    // The number and the values of a refusal, if there is one.
    pub type Refusal = Option<(u32, Values)>;

    pub fn refusal<T: Drop, R: Refused + Drop>(answer: Result<T, R>) -> Refusal {
        answer.err().map(|fault| (fault.number(), fault.values()))
    }

    // The refusal of a field with this number, if a field is refused.
    pub fn of_field(number: u32, field: Option<u64>) -> Refusal {
        field.map(|field| (number, Values::One(field)))
    }

    // The figures of a day in field order.
    pub fn figures(day: Day) -> [i64; 5] {
        [
            day.date as i64,
            day.rain as i64,
            day.highest as i64,
            day.lowest as i64,
            day.demand as i64,
        ]
    }
}
