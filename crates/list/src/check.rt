// The check of a list (refusal 4): one pass in which the key of each record is known before it is read. That no record has a slot at or above s
// is asked of the first record alone, since a node's bits are the union of its children's.
ghost use Rattle.std.specs.Prelude.{◌≡◌, true, cond, ◌&&◌, ℕ, ◌+◌, ◌*◌, ◌^◌, ◌≤◌, ◌<◌, length, get_or, drop, leb, eqb};
ghost use Rattle.keys.specs.Key.{slot_limit, valid_key};
ghost use Rattle.definitions.specs.Read.{room, paired, records_of, is_list};
ghost use Rattle.definitions.specs.Log.{is_content};
ghost use Rattle.list.specs.Check.{one_slot, rest_place, after_node};
ghost use Rattle.list.specs.After.{AfterNode};

use keys::{Key, power, zeros};

// Exactly one slot is set: the record is a leaf's.
pub fn has_one_slot(bits: u32) -> bool
    ensures { result ≡ one_slot bits }
{
    if bits == 0 {
        return false;
    }
    bits & (bits - 1) == 0
}

// The same of bits that are known not to be 0, as those of a list are: one test tells.
pub fn is_leaf(bits: u32) -> bool
    requires { 0 < bits }
    ensures { result ≡ one_slot bits }
{
    bits & (bits - 1) == 0
}

// Four bitstrings have one slot each. A number without its last slot is 0 if it has no other: of the four what is left is joined, so one test tells.
fn have_one_slot(a: u32, b: u32, c: u32, d: u32) -> bool
    ensures { result ≡ ((one_slot a && one_slot b) && one_slot c) && one_slot d }
{
    if (a == 0) | (b == 0) | (c == 0) | (d == 0) {
        return false;
    }
    (a & (a - 1)) | (b & (b - 1)) | (c & (c - 1)) | (d & (d - 1)) == 0
}

// The next four keys are those of the children of a node of height 1.
fn are_pixels(keys: &[u32], first: usize, key: u32) -> bool
    requires { (first + 4 ≤ length keys.now) × (key + 5 < 2 ^ 32) }
    ensures { result ≡ ((eqb (get_or keys.now first 0) (key + 1) && eqb (get_or keys.now (first + 1) 0) (key + 2))
        && eqb (get_or keys.now (first + 2) 0) (key + 3))
        && eqb (get_or keys.now (first + 3) 0) (key + 4) }
{
    let nw = keys[first];
    let ne = keys[first + 1];
    let sw = keys[first + 2];
    let se = keys[first + 3];
    (nw == key + 1) & (ne == key + 2) & (sw == key + 3) & (se == key + 4)
}

// After the own record of a node of height 1: whether the next four records are its pixels. Nearly all nodes are at heights 1 and 2, so these
// have functions of their own, without recursion. The four are tested together, which is less to do than one after the other. The answer is no place: so
// the machine need not wait for the tests to know where to read on.
pub fn four_pixels(keys: &[u32], bits: &[u32], first: usize, key: u32, own: u32) -> bool
    requires { (length keys.now ≡ length bits.now) × (first ≤ length keys.now) × (key + 5 < 2 ^ 32) }
    ensures { (result ≡ true → first + 4 ≤ length keys.now)
        × (cond result (first + 4) 0
        ≡ rest_place (length keys.now) (after_node 1 key own (drop first (paired keys.now bits.now)))) }
{
    if keys.len() - first < 4 {
        return false;
    }
    if !are_pixels(keys, first, key) {
        return false;
    }
    let a = bits[first];
    let b = bits[first + 1];
    let c = bits[first + 2];
    let d = bits[first + 3];
    if (a | b | c | d) != own {
        return false;
    }
    have_one_slot(a, b, c, d)
}

// `after_node` at height 2.
fn after_sixteen(keys: &[u32], bits: &[u32], first: usize, key: u32, own: u32) -> Option<usize>
    requires { (length keys.now ≡ length bits.now) × (first ≤ length keys.now) × (key + 25 < 2 ^ 32) }
    ensures { AfterNode keys.now bits.now first key own 5 result }
{
    let mut next = first;
    let mut union = 0;
    for digit in 1..5 {
        if keys.len() <= next {
            return None;
        }
        let child = Key::child(key, 5, digit);
        if keys[next] != child {
            return None;
        }
        let found = bits[next];
        next += 1;
        if !has_one_slot(found) {
            if !four_pixels(keys, bits, next, child, found) {
                return None;
            }
            next += 4;
        }
        union |= found;
    }
    if union == own { Some(next) } else { None }
}

// `after_node` below height 3. A pixel is no node.
fn after_low(
    keys: &[u32],
    bits: &[u32],
    first: usize,
    key: u32,
    own: u32,
    step: u32,
) -> Option<usize>
    requires { (length keys.now ≡ length bits.now) × (first ≤ length keys.now) × (step < 25) × (key + 5 * step < 2 ^ 32) }
    ensures { AfterNode keys.now bits.now first key own step result }
{
    if step == 5 {
        return after_sixteen(keys, bits, first, key, own);
    }
    if step == 1 && four_pixels(keys, bits, first, key, own) {
        Some(first + 4)
    } else {
        None
    }
}

// After a node's own record: the place after its last record, or none where what follows are not its four children. A leaf among them is passed
// here, so that only nodes are called for, and those of height 2 without recursion.
fn after_node(
    keys: &[u32],
    bits: &[u32],
    first: usize,
    key: u32,
    own: u32,
    step: u32,
) -> Option<usize>
    requires { (length keys.now ≡ length bits.now) × (first ≤ length keys.now) × (key + 5 * step < 2 ^ 32) }
    ensures { AfterNode keys.now bits.now first key own step result }
{
    if step < 25 {
        return after_low(keys, bits, first, key, own, step);
    }
    let lower = step / 5;
    let mut next = first;
    let mut union = 0;
    for digit in 1..5 {
        if keys.len() <= next {
            return None;
        }
        let child = Key::child(key, step, digit);
        if keys[next] != child {
            return None;
        }
        let found = bits[next];
        next += 1;
        if !has_one_slot(found) {
            if lower == 5 {
                next = after_sixteen(keys, bits, next, child, found)?;
            } else {
                next = after_node(keys, bits, next, child, found, lower)?;
            }
        }
        union |= found;
    }
    if union == own { Some(next) } else { None }
}

// The first n records are there, and are the list of the block with the given key at m and s.
pub fn is_content(m: u32, s: u32, keys: &[u32], bits: &[u32], n: usize, key: u32) -> bool
    requires { (m ≤ 10) × (s ≤ slot_limit) × (valid_key m key ≡ true) }
    ensures { result ≡ leb n (room keys.now bits.now)
        && is_content m s key (records_of keys.now bits.now n) }
{
    if n == 0 {
        return false;
    }
    if keys.len() < n {
        return false;
    }
    if bits.len() < n {
        return false;
    }
    if keys[0] != key {
        return false;
    }
    let own = bits[0];
    if !power::slots_below(own, s) {
        return false;
    }
    if has_one_slot(own) {
        return n == 1;
    }
    let step = zeros::keys_in(m, key) / 5;
    after_node(&keys[..n], &bits[..n], 1, key, own, step) == Some(n)
}

// The first n records are there, and are a raster's list at m and s.
pub fn is_list(m: u32, s: u32, keys: &[u32], bits: &[u32], n: usize) -> bool
    requires { (m ≤ 10) × (s ≤ slot_limit) }
    ensures { result ≡ is_list m s keys.now bits.now n }
{
    is_content(m, s, keys, bits, n, Key::ROOT)
}
