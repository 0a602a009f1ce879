// What an edit will do, found before anything is written: refusal 9 is decided on it, so that only the end result counts.
ghost use Rattle.std.specs.Prelude.{◌≡◌, true, ◌+◌, ◌-◌, ◌*◌, ◌≤◌, ◌<◌, ◌^◌, length};
ghost use Rattle.keys.specs.Key.{valid_key, height_of, all_keys};
ghost use Rattle.definitions.specs.Read.{records_of};
ghost use Rattle.definitions.specs.Standing.{standing_of};
ghost use Rattle.list.specs.Sorted.{Sorted};
ghost use Rattle.list.specs.Taken.{records_listed};
ghost use Rattle.replace.specs.Climb.{climb as climbed};
ghost use Rattle.replace.specs.Put.{top_with, plan_at};

use crate::parents;
use definitions::Standing;
use keys::{Key, power};
use list::accepted_list::Accepted;

// The block of height top is filled; old records from place start on are exchanged; the leaf around it is split so many levels, 0 if it is listed.
#[derive(Clone, Copy)]
pub struct Plan {
    pub top: u32,
    pub start: usize,
    pub old: usize,
    pub levels: u32,
}

// The height of the largest block around key that has the bits b of one feature, where the block of height low has got them: up as long as the
// parent's bits are the same. Only the keys must be in order.
pub fn climb(m: u32, keys: &[u32], bits: &[u32], key: u32, b: u32, low: u32) -> u32
    requires m_bound { (m ≤ 10) × (low ≤ m) × (key < all_keys) }
    requires sorted { Sorted keys.now (length keys.now) 0 }
    requires paired { length keys.now ≤ length bits.now }
    ensures { result ≡ climbed (records_of keys.now bits.now (length keys.now)) key b (m - low) low }
{
    let mut step = power::power_of_five(low);
    for height in low..m {
        let parent = parents::parent_bits(keys, bits, key, b, step);
        if parent != b {
            return height;
        }
        step *= 5;
    }
    m
}

// The height of the block around key that is filled: its own, or where climbing ends for a content of one record, whose bits are told.
fn top_of(list: &Accepted<'_>, key: u32, one: Option<u32>) -> u32
    requires { valid_key list.now.m key ≡ true }
    ensures { result ≡ top_with list.now.m (records_listed list.now) key one }
{
    let low = Key { number: key }.height(list.m);
    match one {
        Some(bits) => climb(list.m, list.keys, list.bits, key, bits, low),
        None => low,
    }
}

// Where the filled block stands: as was told, where it is the block itself. Another one lies around that, and merging fills it: its record comes before all
// that was looked at, so it is looked for anew.
fn filled_standing(
    list: &Accepted<'_>,
    key: u32,
    standing: Standing,
    filled: u32,
    step: u32,
) -> Standing
    requires standing_value { standing ≡ standing_of list.now.m key (records_listed list.now) }
    requires block_in { (valid_key list.now.m filled ≡ true) × (step ≡ 5 ^ height_of list.now.m filled) }
    ensures { result ≡ standing_of list.now.m filled (records_listed list.now) }
{
    if filled == key {
        return standing;
    }
    list.stand_from(0, filled, step)
}

// The plan for a content whose bits are told if it is one record, where the standing of the block is known too: where the filled block stands says which
// records are exchanged, and how far the leaf around it is split.
pub fn plan_by(list: &Accepted<'_>, key: u32, one: Option<u32>, standing: Standing) -> Plan
    requires valid { valid_key list.now.m key ≡ true }
    requires standing_value { standing ≡ standing_of list.now.m key (records_listed list.now) }
    ensures { result ≡ plan_at list.now.m (records_listed list.now) key (top_with list.now.m (records_listed list.now) key one) }
{
    let top = top_of(list, key, one);
    let step = power::power_of_five(top);
    let filled = key / step * step;
    match filled_standing(list, key, standing, filled, step) {
        Standing::Listed(start, old) => Plan {
            top,
            start,
            old,
            levels: 0,
        },
        Standing::Inside(start, around, level) => Plan {
            top,
            start,
            old: 1,
            levels: list.m - level - top,
        },
    }
}

// The same, where the standing is not known yet.
pub fn plan_of(list: &Accepted<'_>, key: u32, one: Option<u32>) -> Plan
    requires { valid_key list.now.m key ≡ true }
    ensures { result ≡ plan_at list.now.m (records_listed list.now) key (top_with list.now.m (records_listed list.now) key one) }
{
    plan_by(list, key, one, list.stand(key))
}

// How many records the list has afterwards, for a content of so many records.
pub fn length_after(n: usize, count: usize, plan: Plan) -> usize
    requires { (plan.old ≤ n) × (plan.levels ≤ 10) × (n + count < 2 ^ 63) }
    ensures { result ≡ n - plan.old + (4 * plan.levels + count) }
{
    n - plan.old + (4 * plan.levels as usize + count)
}
