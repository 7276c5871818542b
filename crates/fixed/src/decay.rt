// The curve exp(-k/1024).
ghost use Rattle.std.specs.Prelude.{◌≡◌, ◌<◌, ◌≤◌};
ghost use Rattle.fixed.specs.Decay.{decay_at, decay_below, decay_bit};

// One, in thousand-millionths.
const ONE: u32 = 1_000_000_000;

// From here on nothing is left.
const END: u32 = 16384;

// exp(-2^n/1024) for the bits 8192 down to 1.
const CONSTANTS: [u32; 14] = [
    335463, 18315639, 135335283, 367879441, 606530660, 778800783, 882496903, 939413063, 969233234,
    984496437, 992217938, 996101369, 998048781, 999023914,
];

// e times the constant of the bit of k at a place, cut, where that bit is set.
fn decay_bit(k: u32, place: u32, constant: u32, e: u32) -> u32
    requires shifts { place < 32 }
    requires factor { constant ≤ 1000000000 }
    requires bounded { e ≤ 1000000000 }
    ensures value { result ≡ decay_bit k place constant e }
    ensures bound { result ≤ 1000000000 }
{
    if (k >> place) % 2 == 1 {
        (e as u64 * constant as u64 / ONE as u64) as u32
    } else {
        e
    }
}

// exp(-k/1024) in thousand-millionths, bit by bit from the highest.
fn decay_below(k: u32) -> u32
    ensures value { result ≡ decay_below k }
    ensures bound { result ≤ 1000000000 }
{
    let mut e = ONE;
    // The place of a constant names its bit.
    for (i, constant) in CONSTANTS.iter().enumerate() {
        e = decay_bit(k, 13 - i as u32, *constant, e);
    }
    e
}

// exp(-k/1024) in thousand-millionths.
pub fn decay(k: u32) -> u32
    ensures value { result ≡ decay_at k }
    ensures bound { result ≤ 1000000000 }
{
    if k < END { decay_below(k) } else { 0 }
}
