// The powers that keys and sides are made of, each hidden behind one function so that a caller sees the power alone.
ghost use Rattle.std.specs.Prelude.{◌≡◌, ◌≤◌, ◌^◌, ltb};

// Twelve powers are all that keys need, so they are told and not worked out: the compiler makes a table of them.
pub fn power_of_five(height: u32) -> u32
    requires { height ≤ 11 }
    ensures { result ≡ 5 ^ height }
{
    match height {
        0 => 1,
        1 => 5,
        2 => 25,
        3 => 125,
        4 => 625,
        5 => 3125,
        6 => 15625,
        7 => 78125,
        8 => 390625,
        9 => 1953125,
        10 => 9765625,
        _ => 48828125,
    }
}

pub fn power_of_two(height: u32) -> u32
    requires { height ≤ 31 }
    ensures { result ≡ 2 ^ height }
{
    1u32 << height
}

// No slot at or above s is set, for every s: 2 ^ 32 has no place in 32 bits, and no bitstring reaches it.
pub fn slots_below(bits: u32, s: u32) -> bool
    ensures { result ≡ ltb bits (2 ^ s) }
{
    31 < s || bits < power_of_two(s)
}
