// Little-endian numbers in bytes, each byte by its place: `first_chunk` would test a length that is known.
ghost use Rattle.std.specs.Prelude.{◌≡◌, ◌+◌, ◌≤◌, length};
ghost use Rattle.sources.specs.Bytes.{word_at, half_at};

// The number of 32 bits that begins at a place.
pub(crate) fn word(bytes: &[u8], place: usize) -> u32
    requires { place + 4 ≤ length bytes.now }
    ensures { result ≡ word_at bytes.now place }
{
    u32::from_le_bytes([
        bytes[place],
        bytes[place + 1],
        bytes[place + 2],
        bytes[place + 3],
    ])
}

// The signed number of 16 bits that begins at a place.
pub(crate) fn half(bytes: &[u8], place: usize) -> i16
    requires { place + 2 ≤ length bytes.now }
    ensures { result ≡ half_at bytes.now place }
{
    i16::from_le_bytes([bytes[place], bytes[place + 1]])
}
