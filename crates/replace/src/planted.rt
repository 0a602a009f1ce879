// The records that stand before and after a content that is planted in a leaf of another feature: four a level.
ghost use Rattle.std.specs.Prelude.{◌≡◌, ℕ, ◌+◌, ◌*◌, ◌≤◌, ◌<◌, ◌^◌, length};
ghost use Rattle.keys.specs.Key.{all_keys};
ghost use Rattle.replace.specs.Plant.{digit_at, leaves, front, back};
ghost use Rattle.replace.specs.Planting.{WroteFrom, Roomy, Deep};

use keys::power;

// So many leaves with bits g from a place on: the quadrants of the block with key parent, from one digit on, each at its step.
fn write_leaves(
    keys: &mut [u32],
    bits: &mut [u32],
    at: usize,
    parent: u32,
    step: u32,
    first: u32,
    count: u32,
    g: u32,
) -> usize
    requires { (at + count ≤ length keys.old) × (at + count ≤ length bits.old) × (first + count ≤ 5) × (parent < all_keys) × (step ≤ 5 ^ 9) }
    ensures { (h : ℕ) → step ≡ 5 ^ h
        → WroteFrom (leaves g parent h count first) at keys.old bits.old keys.new bits.new result }
{
    for done in 0..count {
        let place = at + done as usize;
        keys[place] = parent + (first + done) * step;
        bits[place] = g;
    }
    at + count as usize
}

// Which quadrant the block of height h around key is of its parent, where step is 5 ^ h.
fn quadrant_at(key: u32, step: u32) -> u32
    requires { (key < all_keys) × (1 ≤ step) × (step ≤ 5 ^ 9) }
    ensures { (h : ℕ) → step ≡ 5 ^ h → result ≡ digit_at h key }
{
    let wide = step * 5;
    (key / step * step - key / wide * wide) / step
}

// The records before the content of the block of height low around key, so many levels up, the highest first: of each level the node's record
// with the bits v, and leaves with the bits g.
pub fn write_front(
    keys: &mut [u32],
    bits: &mut [u32],
    at: usize,
    key: u32,
    low: u32,
    levels: u32,
    g: u32,
    v: u32,
) -> usize
    requires deep { Deep key low levels }
    requires roomy { Roomy (front key g v low levels) at keys.old bits.old }
    ensures { WroteFrom (front key g v low levels) at keys.old bits.old keys.new bits.new result }
{
    let mut wide = power::power_of_five(low + levels);
    let mut place = at;
    for _done in 0..levels {
        let step = wide / 5;
        let parent = key / wide * wide;
        let before = quadrant_at(key, step) - 1;
        keys[place] = parent;
        bits[place] = v;
        place = write_leaves(keys, bits, place + 1, parent, step, 1, before, g);
        wide = step;
    }
    place
}

// The records after it, the lowest level first.
pub fn write_back(
    keys: &mut [u32],
    bits: &mut [u32],
    at: usize,
    key: u32,
    low: u32,
    levels: u32,
    g: u32,
) -> usize
    requires deep { Deep key low levels }
    requires roomy { Roomy (back key g low levels) at keys.old bits.old }
    ensures { WroteFrom (back key g low levels) at keys.old bits.old keys.new bits.new result }
{
    let mut step = power::power_of_five(low);
    let mut place = at;
    for _done in 0..levels {
        let wide = step * 5;
        let parent = key / wide * wide;
        let digit = quadrant_at(key, step);
        place = write_leaves(keys, bits, place, parent, step, digit + 1, 4 - digit, g);
        step = wide;
    }
    place
}
