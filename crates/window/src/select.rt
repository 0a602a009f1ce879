// Select: where does a feature occur in a window?
ghost use Rattle.std.specs.Prelude.{◌≡◌, true, ◌≤◌, ◌<◌, length, drop};
ghost use Rattle.keys.specs.Key.{slot_limit, all_keys};
ghost use Rattle.definitions.specs.Read.{records_of};
ghost use Rattle.definitions.specs.Window.{is_window, select_in};
ghost use Rattle.list.specs.Taken.{picture_listed};
ghost use Rattle.walk.specs.Walk.{Walking, is_within};
ghost use Rattle.walk.specs.Given.{keys_with};
ghost use Rattle.window.specs.Gather.{Gave, InLeaf, GaveLeaf, Onward};

use definitions::Window;
use keys::power;
use list::accepted_list::Accepted;
use walk::{Spot, asking};

// The answer, its limit and the count so far stay parameters by themselves: a contract says of each what a call may change.

// Gives the keys of the records from one place up to another that have exactly the bit.
fn gather_run(
    keys: &[u32],
    bits: &[u32],
    first: usize,
    end: usize,
    bit: u32,
    answer: &mut [u32],
    limit: usize,
    count: usize,
) -> usize
    requires { (end ≤ length keys.now) × (end ≤ length bits.now) × (limit ≤ length answer.old) × (count ≤ all_keys) }
    ensures { Gave (keys_with bit (drop first (records_of keys.now bits.now end)))
        limit count answer.old answer.new result }
{
    let mut given = count;
    for i in first..end {
        if bits[i] == bit {
            slices::write_within(answer, limit, given, keys[i]);
            given += 1;
        }
    }
    given
}

// The block that follows on a walk that asks no list: the first quadrant of one that the window cuts, or what comes after one that it holds or that lies
// apart from it.
fn onward(m: u32, window: Window, spot: Spot, held: bool) -> Option<Spot>
    requires { (m ≤ 10) × (is_window m window ≡ true) × Walking m window spot × (held ≡ is_within spot window) }
    ensures { Onward m window spot result }
{
    if held || walk::apart(spot, window) {
        return walk::after(m, spot);
    }
    Some(walk::first(spot))
}

// Gives the largest blocks of the window in a leaf of the feature, from a block of it on: the standing told the leaf, so the list is not asked again.
fn gather_leaf(
    m: u32,
    window: Window,
    leaf: Spot,
    first: Spot,
    answer: &mut [u32],
    limit: usize,
    count: usize,
) -> usize
    requires { (m ≤ 10) × (is_window m window ≡ true) × InLeaf m window leaf first × (limit ≤ length answer.old) × (count ≤ all_keys) }
    ensures { GaveLeaf m window leaf first limit count answer.old answer.new result }
{
    let leaf_key = leaf.key;
    let end = leaf_key + leaf.step;
    let mut given = count;
    let mut spot = first;
    loop {
        let held = walk::within(spot, window);
        if held {
            slices::write_within(answer, limit, given, spot.key);
            given += 1;
        }
        let Some(next) = onward(m, window, spot, held) else {
            return given;
        };
        if end <= next.key {
            return given;
        }
        spot = next;
    }
}

// Gives the keys that select gives: counts them all, and writes those whose places are below the limit. A block without the feature is passed, whatever
// lies below it, and so is the whole leaf around it. Of a leaf of the feature the largest blocks within the window are given, and of a node within it the
// leaves among its records; only a cut node is entered. Each search begins at the record of the block that was entered, or at the last one of what was
// passed.
pub fn gather(
    list: &Accepted<'_>,
    window: Window,
    feature: u32,
    answer: &mut [u32],
    limit: usize,
) -> usize
    requires { (is_window list.now.m window ≡ true) × (feature < slot_limit) × (limit ≤ length answer.old) }
    ensures { Gave (select_in list.now.m (picture_listed list.now) window feature) limit 0 answer.old answer.new result }
{
    let bit = power::power_of_two(feature);
    let mut count = 0;
    let mut spot = walk::start(list.m);
    let mut from = 0;
    loop {
        loop {
            if walk::apart(spot, window) {
                break;
            }
            let told = asking::ask(list, from, spot);
            let found = list.bits[told.place];
            if found & bit == 0 {
                spot = told.whole;
                from = told.last;
                break;
            }
            if found == bit {
                count = gather_leaf(list.m, window, told.whole, spot, answer, limit, count);
                spot = told.whole;
                from = told.last;
                break;
            }
            if walk::within(spot, window) {
                let end = told.last + 1;
                count = gather_run(
                    list.keys, list.bits, told.place, end, bit, answer, limit, count,
                );
                spot = told.whole;
                from = told.last;
                break;
            }
            from = told.place;
            spot = walk::first(spot);
        }
        let Some(next) = walk::after(list.m, spot) else {
            return count;
        };
        spot = next;
    }
}
