// How long a line of a log is.
ghost use Rattle.std.specs.Prelude.{◌≡◌, length, decimal};
ghost use Rattle.run_log.specs.Log.{line_bytes};

// How many digits the number has; 0 has one.
fn digit_count(number: u128) -> usize
    ensures { result ≡ length (decimal number) }
{
    number.max(1).ilog10() as usize + 1
}

// The name, a space, the number and a line feed.
pub(crate) fn line_length(name: &str, number: u128) -> usize
    ensures { result ≡ length (line_bytes (name.now, number)) }
{
    name.len() + digit_count(number) + 2
}
