// The zeros in a key. Digits are read from the right, since to divide by five is a multiplication, and to divide by a power that is not known beforehand is
// not.
ghost use Rattle.std.specs.Prelude.{◌≡◌, ◌≤◌, ◌<◌, ◌^◌, eqb};
ghost use Rattle.keys.specs.Key.{zeros_at_end, level_of, valid_key};

use crate::power;

// How many zeros stand at the end of a key, and the power of five that goes with them.
#[derive(Clone, Copy, PartialEq, Eq, Debug)]
pub struct EndZeros {
    pub count: u32,
    pub power: u32,
}

// Of the root, which is asked for most, every digit is one, and none need be read.
pub fn at_end(m: u32, key: u32) -> EndZeros
    requires { m ≤ 10 }
    ensures { (result.count ≡ zeros_at_end m key) × (result.power ≡ 5 ^ zeros_at_end m key) }
{
    if key == 0 {
        return EndZeros {
            count: m,
            power: power::power_of_five(m),
        };
    }
    let mut power = 1;
    let mut rest = key;
    for count in 0..m {
        if rest % 5 != 0 {
            return EndZeros { count, power };
        }
        rest = rest / 5;
        power = power * 5;
    }
    EndZeros { count: m, power }
}

// How many keys a block has, its own and those below it: five times as many for each zero at the end of its key.
pub fn keys_in(m: u32, key: u32) -> u32
    requires { m ≤ 10 }
    ensures { result ≡ 5 ^ zeros_at_end m key }
{
    at_end(m, key).power
}

// None of the k digits of a number is 0.
fn none_in(k: u32, number: u32) -> bool
    requires { number < 5 ^ k }
    ensures { result ≡ eqb (level_of k number) k }
{
    let mut rest = number;
    for _ in 0..k {
        if rest % 5 == 0 {
            return false;
        }
        rest = rest / 5;
    }
    true
}

// Of the m digits of a number none is 0 but at its end.
pub fn only_at_end(m: u32, number: u32) -> bool
    requires { number < 5 ^ m }
    ensures { result ≡ valid_key m number }
{
    let mut rest = number;
    for left in (0..m).rev() {
        let digit = rest % 5;
        rest = rest / 5;
        if digit != 0 {
            return none_in(left, rest);
        }
    }
    true
}
