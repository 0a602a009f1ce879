// The check of a file's records (refusal 4), read from the file's bytes: the same pass as over two slices, since nothing lent may be written
// before all is accepted. The functions take file, width and n one by one and not as a struct: a loop is made once a width where the width is an argument.
ghost use Rattle.std.specs.Prelude.{◌≡◌, true, cond, ◌+◌, ◌*◌, ◌^◌, ◌≤◌, ◌<◌, drop};
ghost use Rattle.keys.specs.Key.{root_key, slot_limit, valid_key};
ghost use Rattle.definitions.specs.Read.{is_list_of_block};
ghost use Rattle.definitions.specs.File.{records_in_file};
ghost use Rattle.definitions.specs.Log.{is_content};
ghost use Rattle.list.specs.Check.{rest_place, after_node};
ghost use Rattle.file.specs.Layout.{records_at, RecordsFit};
ghost use Rattle.file.specs.After.{AfterNodeIn};
ghost use Rattle.file.specs.Room.{Exact};

use crate::{bytes, layout};
use definitions::answers::ListHead;
use keys::{Key, power, zeros};
use list::check;

// After the own record of a node of height 1: whether the next four records are its pixels. Heights 1 and 2 have functions of their own, as in
// the check of two slices.
fn four_pixels(file: &[u8], width: usize, n: usize, first: usize, key: u32, own: u32) -> bool
    requires { RecordsFit width n file.now × (first ≤ n) × (key + 5 < 2 ^ 32) }
    ensures { (result ≡ true → first + 4 ≤ n)
        × (cond result (first + 4) 0 ≡ rest_place n (after_node 1 key own (drop first (records_at width n file.now)))) }
{
    if n - first < 4 {
        return false;
    }
    let mut next = first;
    let mut union = 0;
    for digit in 1..5 {
        let place = layout::place(width, next);
        if bytes::u32_at(file, place) != key + digit {
            return false;
        }
        let found = layout::bits_behind(file, width, place);
        if !check::has_one_slot(found) {
            return false;
        }
        union |= found;
        next += 1;
    }
    union == own
}

// `after_node` at height 2. The loop goes from child to child by the key alone and counts no digit: so it is small enough for the compiler to make it once a
// width.
fn after_sixteen(
    file: &[u8],
    width: usize,
    n: usize,
    first: usize,
    key: u32,
    own: u32,
) -> Option<usize>
    requires { RecordsFit width n file.now × (first ≤ n) × (key + 25 < 2 ^ 32) }
    ensures { AfterNodeIn width n file.now first key own 5 result }
{
    let mut next = first;
    let mut union = 0;
    let end = key + 25;
    let mut child = key + 5;
    while child != end {
        if n <= next {
            return None;
        }
        if layout::key_at(file, width, next) != child {
            return None;
        }
        let found = layout::bits_at(file, width, next);
        next += 1;
        if !check::has_one_slot(found) {
            if !four_pixels(file, width, n, next, child, found) {
                return None;
            }
            next += 4;
        }
        union |= found;
        child += 5;
    }
    if union == own { Some(next) } else { None }
}

// `after_node` at height 3: with one step and one call this loop, too, is small enough. It is no generic one with that at height 2: what checks a child would
// be a closure there, whose contract is longer than the loop.
fn after_sixty_four(
    file: &[u8],
    width: usize,
    n: usize,
    first: usize,
    key: u32,
    own: u32,
) -> Option<usize>
    requires { RecordsFit width n file.now × (first ≤ n) × (key + 125 < 2 ^ 32) }
    ensures { AfterNodeIn width n file.now first key own 25 result }
{
    let mut next = first;
    let mut union = 0;
    let end = key + 125;
    let mut child = key + 25;
    while child != end {
        if n <= next {
            return None;
        }
        if layout::key_at(file, width, next) != child {
            return None;
        }
        let found = layout::bits_at(file, width, next);
        next += 1;
        if !check::has_one_slot(found) {
            next = after_sixteen(file, width, n, next, child, found)?;
        }
        union |= found;
        child += 25;
    }
    if union == own { Some(next) } else { None }
}

// `after_node` below height 4. A pixel is no node.
fn after_low(
    file: &[u8],
    width: usize,
    n: usize,
    first: usize,
    key: u32,
    own: u32,
    step: u32,
) -> Option<usize>
    requires { RecordsFit width n file.now × (first ≤ n) × (step < 26) × (key + 5 * step < 2 ^ 32) }
    ensures { AfterNodeIn width n file.now first key own step result }
{
    match step {
        25 => after_sixty_four(file, width, n, first, key, own),
        5 => after_sixteen(file, width, n, first, key, own),
        1 if four_pixels(file, width, n, first, key, own) => Some(first + 4),
        _ => None,
    }
}

// After a node's own record: the place after its last record, or none where what follows are not its four children. A leaf among them is passed
// here, so that only nodes are called for, and those of height 3 without recursion.
fn after_node(
    file: &[u8],
    width: usize,
    n: usize,
    first: usize,
    key: u32,
    own: u32,
    step: u32,
) -> Option<usize>
    requires { RecordsFit width n file.now × (first ≤ n) × (key + 5 * step < 2 ^ 32) }
    ensures { AfterNodeIn width n file.now first key own step result }
{
    if step < 26 {
        return after_low(file, width, n, first, key, own, step);
    }
    let lower = step / 5;
    let mut next = first;
    let mut union = 0;
    for digit in 1..5 {
        if n <= next {
            return None;
        }
        let child = Key::child(key, step, digit);
        if layout::key_at(file, width, next) != child {
            return None;
        }
        let found = layout::bits_at(file, width, next);
        next += 1;
        if !check::has_one_slot(found) {
            if lower == 25 {
                next = after_sixty_four(file, width, n, next, child, found)?;
            } else {
                next = after_node(file, width, n, next, child, found, lower)?;
            }
        }
        union |= found;
    }
    if union == own { Some(next) } else { None }
}

// The first n records of a file are the list of the block with the given key at m and s.
pub fn holds_block(file: &[u8], width: usize, n: usize, m: u32, s: u32, key: u32) -> bool
    requires { RecordsFit width n file.now × (m ≤ 10) × (s ≤ slot_limit) × (valid_key m key ≡ true) }
    ensures { result ≡ is_content m s key (records_at width n file.now) }
{
    if n == 0 {
        return false;
    }
    if layout::key_at(file, width, 0) != key {
        return false;
    }
    let own = layout::bits_at(file, width, 0);
    if !power::slots_below(own, s) {
        return false;
    }
    if check::has_one_slot(own) {
        return n == 1;
    }
    let step = zeros::keys_in(m, key) / 5;
    after_node(file, width, n, 1, key, own, step) == Some(n)
}

// The records of a file as long as its head says are a raster's list at the head's m and s.
pub fn holds_list(file: &[u8], head: ListHead) -> bool
    requires { Exact head.m head.s head.n file.now }
    ensures { result ≡ is_list_of_block head.m head.s head.m 0 0 root_key (records_in_file file.now) }
{
    let width = layout::width(head.s);
    holds_block(file, width, head.n, head.m, head.s, Key::ROOT)
}
