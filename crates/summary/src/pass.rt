// A list checked and its blocks counted in one pass: each node is counted where it is checked, so that its records are read once. Nearly all nodes have four
// or sixteen pixels, so these have functions of their own, without recursion. A node's place, key, bits and step are passed side by side: a struct of them would
// be built for each child and taken apart at once.
ghost use Rattle.std.specs.Prelude.{cond, ◌+◌, ◌≤◌, Some, None};
ghost use Rattle.summary.specs.Pass.{PassAsked, PassAnswered};

use crate::count;
use keys::Key;
use list::check;

// After the own record of a node of four pixels: whether the next four records are its pixels. If so they are counted. The answer is no place: so the machine
// need not wait for the tests to know where to read on.
fn pass_pixels(
    keys: &[u32],
    bits: &[u32],
    counts: &mut [u32; 32],
    at: usize,
    key: u32,
    own: u32,
) -> bool
    requires { PassAsked keys.now bits.now counts.old at key own 1 4 }
    ensures { PassAnswered keys.now bits.now counts.old counts.new at key own 1 4 (cond result (Some (at + 5)) None) }
{
    let first = at + 1;
    if !check::four_pixels(keys, bits, first, key, own) {
        return false;
    }
    count::count_pixels(bits, counts, at);
    true
}

// The same of sixteen pixels: the place after the node's last record, or none where what follows are not its four children.
fn pass_sixteen(
    keys: &[u32],
    bits: &[u32],
    counts: &mut [u32; 32],
    at: usize,
    key: u32,
    own: u32,
) -> Option<usize>
    requires { PassAsked keys.now bits.now counts.old at key own 5 16 }
    ensures { PassAnswered keys.now bits.now counts.old counts.new at key own 5 16 result }
{
    let mut next = at + 1;
    let mut union = 0;
    for digit in 1..5 {
        if keys.len() <= next {
            return None;
        }
        let child = Key::child(key, 5, digit);
        if keys[next] != child {
            return None;
        }
        let found = bits[next];
        if check::has_one_slot(found) {
            count::count_leaf(counts, found, 4);
            next += 1;
        } else {
            if !pass_pixels(keys, bits, counts, next, child, found) {
                return None;
            }
            next += 5;
        }
        union |= found;
    }
    if union == own { Some(next) } else { None }
}

// The same of more pixels. A leaf among the four children is counted here, so that only nodes are called for.
fn pass_node(
    keys: &[u32],
    bits: &[u32],
    counts: &mut [u32; 32],
    at: usize,
    key: u32,
    own: u32,
    step: u32,
    area: u32,
) -> Option<usize>
    requires { PassAsked keys.now bits.now counts.old at key own step area × (25 ≤ step) }
    ensures { PassAnswered keys.now bits.now counts.old counts.new at key own step area result }
{
    let lower = step / 5;
    let quarter = area / 4;
    let mut next = at + 1;
    let mut union = 0;
    for digit in 1..5 {
        if keys.len() <= next {
            return None;
        }
        let child = Key::child(key, step, digit);
        if keys[next] != child {
            return None;
        }
        let found = bits[next];
        if check::has_one_slot(found) {
            count::count_leaf(counts, found, quarter);
            next += 1;
        } else if lower == 5 {
            next = pass_sixteen(keys, bits, counts, next, child, found)?;
        } else {
            next = pass_node(keys, bits, counts, next, child, found, lower, quarter)?;
        }
        union |= found;
    }
    if union == own { Some(next) } else { None }
}

// The same of sixteen pixels or more.
pub fn pass_block(
    keys: &[u32],
    bits: &[u32],
    counts: &mut [u32; 32],
    at: usize,
    key: u32,
    own: u32,
    step: u32,
    area: u32,
) -> Option<usize>
    requires { PassAsked keys.now bits.now counts.old at key own step area × (5 ≤ step) }
    ensures { PassAnswered keys.now bits.now counts.old counts.new at key own step area result }
{
    if step == 5 {
        return pass_sixteen(keys, bits, counts, at, key, own);
    }
    pass_node(keys, bits, counts, at, key, own, step, area)
}
