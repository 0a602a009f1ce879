// The counts that the pass over a list keeps on its way: of each block of the summary that is a node, where it stands and what was counted there.
ghost use Rattle.std.specs.Prelude.{◌≡◌, true, ◌≤◌, ◌^◌, take, is_some, IfSome};
ghost use Rattle.keys.specs.Key.{slot_limit};
ghost use Rattle.definitions.specs.Read.{is_list};
ghost use Rattle.definitions.specs.Area.{summary_height};
ghost use Rattle.summary.specs.Kept.{RowsKept, KeepingAsked, KeepingAnswered, FirstNode};

use crate::{blocks, pass};
use keys::{Key, power};
use list::check;

// What the pass counted of a block of the summary that is a node, and the place of the block's own record.
#[derive(Clone, Copy)]
pub struct KeptBlock {
    pub place: usize,
    pub counts: [u32; 32],
}

// Block number b is checked, counted and kept. The place after its last record is given back, or none where what follows are not its four children.
fn keep_block(
    keys: &[u32],
    bits: &[u32],
    kept: &mut [Option<KeptBlock>; 16],
    at: usize,
    key: u32,
    own: u32,
    step: u32,
    area: u32,
    b: usize,
) -> Option<usize>
    requires { KeepingAsked keys.now bits.now kept.old at key own step area b 1 }
    ensures { KeepingAnswered keys.now bits.now kept.new at key own step area result }
{
    let mut counts = [0u32; 32];
    let end = pass::pass_block(keys, bits, &mut counts, at, key, own, step, area)?;
    kept[b] = Some(KeptBlock { place: at, counts });
    Some(end)
}

// The same of a node above them, which shares so many blocks out among its children, from number b on. A leaf has none that is a node.
fn keep_blocks(
    keys: &[u32],
    bits: &[u32],
    kept: &mut [Option<KeptBlock>; 16],
    at: usize,
    key: u32,
    own: u32,
    step: u32,
    area: u32,
    b: usize,
    share: usize,
) -> Option<usize>
    requires { KeepingAsked keys.now bits.now kept.old at key own step area b share }
    ensures { KeepingAnswered keys.now bits.now kept.new at key own step area result }
{
    if share == 1 {
        return keep_block(keys, bits, kept, at, key, own, step, area, b);
    }
    let lower = step / 5;
    let quarter = share / 4;
    let mut number = b;
    let mut next = at + 1;
    let mut union = 0;
    for digit in 1..5 {
        if keys.len() <= next {
            return None;
        }
        let child = Key::child(key, step, digit);
        if keys[next] != child {
            return None;
        }
        let found = bits[next];
        if check::has_one_slot(found) {
            next += 1;
        } else {
            next = keep_blocks(
                keys, bits, kept, next, child, found, lower, area, number, quarter,
            )?;
        }
        number += quarter;
        union |= found;
    }
    if union == own { Some(next) } else { None }
}

// As many records as n are there, and the first is the root's, with slots below s and several of them: other records follow.
fn begins_node(s: u32, keys: &[u32], bits: &[u32], n: usize) -> bool
    ensures { result ≡ true → FirstNode s keys.now bits.now n }
{
    if n == 0 || keys.len() < n || bits.len() < n {
        return false;
    }
    let own = bits[0];
    keys[0] == Key::ROOT && power::slots_below(own, s) && !check::has_one_slot(own)
}

// The first n records are there, and are a raster's list at m and s. What is counted on the way is kept, at m of 4 and more: then a block of the summary
// has sixteen pixels or more, as the pass asks. What is kept is lent, since the two kilobytes of it would be copied on the stack at each return.
pub fn check_list(
    m: u32,
    s: u32,
    keys: &[u32],
    bits: &[u32],
    n: usize,
    kept: &mut [Option<KeptBlock>; 16],
) -> bool
    requires m_bound { (m ≤ 10) × (s ≤ slot_limit) }
    requires kept_before { RowsKept (take n bits.now) (4 ^ summary_height m) kept.old }
    ensures checked { result ≡ is_list m s keys.now bits.now n }
    ensures known { RowsKept (take n bits.now) (4 ^ summary_height m) kept.new }
{
    if m < 4 || !begins_node(s, keys, bits, n) {
        return check::is_list(m, s, keys, bits, n);
    }
    let own = bits[0];
    let step = power::power_of_five(m - 1);
    let area = blocks::area_of(m);
    match keep_blocks(
        &keys[..n],
        &bits[..n],
        kept,
        0,
        Key::ROOT,
        own,
        step,
        area,
        0,
        16,
    ) {
        Some(end) => end == n,
        None => false,
    }
}
