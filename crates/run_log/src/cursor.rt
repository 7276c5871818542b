// A buffer that is filled from its start.
// No `fmt::Write`: the contract of `write!` says what is written where it succeeds, not that it succeeds.
#[derive(Drop)]
pub(crate) struct Cursor<'a> {
    buffer: &'a mut [u8],
    // How many bytes are filled.
    filled: usize,
}

impl<'a> Cursor<'a> {
    ghost use Rattle.std.specs.Prelude.{◌≡◌, ◌+◌, ◌≤◌, length, decimal};
    ghost use Rattle.run_log.specs.Log.{line_bytes};
    ghost use Rattle.run_log.specs.Cursor.{Puts};

    pub(crate) fn new(buffer: &'a mut [u8]) -> Cursor<'a>
        ensures same_buffer { result.buffer.ghost_name ≡ buffer.entry.ghost_name }
        ensures text { result.buffer.now ≡ buffer.old }
        ensures filled { result.filled ≡ 0 }
    {
        Cursor { buffer, filled: 0 }
    }

    fn put(&mut self, bytes: &[u8])
        requires { self.old.filled + length bytes.now ≤ length self.old.buffer.now }
        ensures { Puts bytes.now self.old self.new }
    {
        let end = self.filled + bytes.len();
        self.buffer[self.filled..end].copy_from_slice(bytes);
        self.filled = end;
    }

    // Puts the digits of a number, the first one first.
    fn put_number(&mut self, number: u128)
        requires { self.old.filled + length (decimal number) ≤ length self.old.buffer.now }
        ensures { Puts (decimal number) self.old self.new }
    {
        if number < 10 {
            self.put(&[b'0' + number as u8]);
        } else {
            self.put_number(number / 10);
            self.put_number(number % 10);
        }
    }

    pub(crate) fn put_line(&mut self, name: &str, number: u128)
        requires { self.old.filled + length (line_bytes (name.now, number)) ≤ length self.old.buffer.now }
        ensures { Puts (line_bytes (name.now, number)) self.old self.new }
    {
        self.put(name.as_bytes());
        self.put(b" ");
        self.put_number(number);
        self.put(b"\n");
    }
}
