// The records of a block are exchanged for others: one move of the tail in each slice, and then the new records are written in their places.
ghost use Rattle.std.specs.Prelude.{◌+◌, ◌*◌, ◌≤◌, ◌<◌, length};
ghost use Rattle.keys.specs.Key.{all_keys};
ghost use Rattle.definitions.specs.Read.{records_of};
ghost use Rattle.replace.specs.Put.{filling, exchanged};
ghost use Rattle.replace.specs.Planting.{WroteFrom};
ghost use Rattle.replace.specs.Exchanging.{inserted_for, Copyable, Insertable, Exchangeable, SlicesHold};

use crate::content::BlockContent;
use crate::plan::Plan;
use crate::planted;
use keys::power;

// What the filled block holds: one record with its own key, since the block may be larger than the one that the content was made for, or the
// content as it is.
fn write_filling(
    keys: &mut [u32],
    bits: &mut [u32],
    at: usize,
    key: u32,
    top: u32,
    content: &BlockContent<'_>,
)
    requires key_lt_all_keys { (key < all_keys) × (top ≤ 10) }
    requires copyable { Copyable at keys.old bits.old content.now.keys.now content.now.bits.now (length content.now.keys.now) }
    ensures { WroteFrom (filling key (records_of content.now.keys.now content.now.bits.now (length content.now.keys.now)) top) at
        keys.old bits.old keys.new bits.new (at + length content.now.keys.now) }
{
    let count = content.keys.len();
    if count == 1 {
        let step = power::power_of_five(top);
        keys[at] = key / step * step;
        bits[at] = content.bits[0];
        return;
    }
    slices::copy(content.keys, 0, count, keys, at);
    slices::copy(content.bits, 0, count, bits, at);
}

// All that is put in, from the plan's start on; g are the bits of the record that stood there.
fn insert(
    keys: &mut [u32],
    bits: &mut [u32],
    key: u32,
    plan: Plan,
    g: u32,
    content: &BlockContent<'_>,
)
    requires { Insertable keys.old bits.old key plan content.now.keys.now content.now.bits.now (length content.now.keys.now) }
    ensures { WroteFrom (inserted_for g key (records_of content.now.keys.now content.now.bits.now (length content.now.keys.now)) plan) plan.start
        keys.old bits.old keys.new bits.new (plan.start + (4 * plan.levels + length content.now.keys.now)) }
{
    let top = plan.top;
    let start = plan.start;
    let levels = plan.levels;
    let first = content.bits[0];
    let at = planted::write_front(keys, bits, start, key, top, levels, g, g | first);
    write_filling(keys, bits, at, key, top, content);
    planted::write_back(keys, bits, at + content.keys.len(), key, top, levels, g);
}

// The records that the plan names are exchanged for those that the content makes of the block. The slices are the lent ones, which go on behind the list's n
// records, since the list may grow into them.
pub fn exchange(
    keys: &mut [u32],
    bits: &mut [u32],
    n: usize,
    key: u32,
    plan: Plan,
    content: &BlockContent<'_>,
)
    requires { Exchangeable keys.old bits.old n key plan content.now.keys.now content.now.bits.now (length content.now.keys.now) }
    ensures { SlicesHold (exchanged (records_of keys.old bits.old n) key
        (records_of content.now.keys.now content.now.bits.now (length content.now.keys.now)) plan)
        keys.old bits.old keys.new bits.new }
{
    let start = plan.start;
    let end = start + plan.old;
    let tail = n - end;
    let place = start + (4 * plan.levels as usize + content.keys.len());
    let g = bits[start];
    slices::shift(keys, end, tail, place);
    slices::shift(bits, end, tail, place);
    insert(keys, bits, key, plan, g, content);
}
