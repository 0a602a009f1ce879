// The bits of a byte string, from the high bit of each byte on.
ghost use Rattle.std.specs.Prelude.{◌≡◌, ◌<◌, drop};
ghost use Rattle.definitions.specs.BitStrings.{bits_in, begins_with, four_equal};
ghost use Rattle.bit_strings.specs.Steps.{bit_told, next_bit, is_spare};

use keys::power;

// The bit at a place, where the string has one.
pub fn bit_at(bytes: &[u8], i: usize) -> Option<bool>
    ensures { bit_told result ≡ next_bit (drop i (bits_in bytes.now)) }
{
    let k = i / 8;
    if bytes.len() <= k {
        return None;
    }
    let byte = u32::from(bytes[k]);
    let low = (i % 8) as u32;
    let high = 7 - low;
    Some((byte >> high) % 2 == 1)
}

// The four bits from a place on are there and equal the given one.
pub fn begins_four(bytes: &[u8], at: usize, bit: bool) -> bool
    requires { at < 10000000 }
    ensures { result ≡ begins_with 4 bit (drop at (bits_in bytes.now)) }
{
    for i in 0..4 {
        let Some(found) = bit_at(bytes, at + i) else {
            return false;
        };
        if found != bit {
            return false;
        }
    }
    true
}

// From a place on there are fewer bits than a byte has, and none is set.
pub fn only_spare(bytes: &[u8], at: usize) -> bool
    ensures { result ≡ is_spare (drop at (bits_in bytes.now)) }
{
    let k = at / 8;
    if bytes.len() <= k {
        return true;
    }
    if at % 8 == 0 {
        return false;
    }
    if k + 1 < bytes.len() {
        return false;
    }
    let byte = u32::from(bytes[k]);
    byte % power::power_of_two((8 - at % 8) as u32) == 0
}

// The node bits from place i on are four leaves, and the leaf bits from place j on give them one feature.
#[tactic(auto, unfolding(definitions::specs::BitStrings::four_equal))]
pub fn equal_siblings(nodes: &[u8], leaves: &[u8], i: usize, j: usize) -> bool
    requires { (i < 10000000) × (j < 10000000) }
    ensures { result ≡ four_equal (drop i (bits_in nodes.now)) (drop j (bits_in leaves.now)) }
{
    begins_four(nodes, i, true) && (begins_four(leaves, j, false) || begins_four(leaves, j, true))
}
