// Renewing the bits of the blocks around a changed one, level by level up to the root.
ghost use Rattle.std.specs.Prelude.{◌≡◌, ◌-◌, ◌≤◌, ◌<◌, ◌^◌, length};
ghost use Rattle.keys.specs.Key.{all_keys};
ghost use Rattle.definitions.specs.List.{values_of};
ghost use Rattle.definitions.specs.Read.{records_of};
ghost use Rattle.definitions.specs.Buffer.{over};
ghost use Rattle.list.specs.Sorted.{Sorted};
ghost use Rattle.replace.specs.Renew.{renew as renewal};

use crate::parents;
use keys::power;
use list::search;

// The block of the given height around key has got the bits b: each block around it gets the union of its four children's. Only the keys must be
// in order, since the bits of the blocks above are still old while this runs.
pub fn renew(m: u32, keys: &[u32], bits: &mut [u32], key: u32, height: u32, b: u32)
    requires m_bound { (m ≤ 10) × (height ≤ m) × (key < all_keys) }
    requires sorted { Sorted keys.now (length keys.now) 0 }
    requires paired { length keys.now ≤ length bits.old }
    ensures { bits.new
        ≡ over (values_of (renewal (records_of keys.now bits.old (length keys.now)) key b (m - height) height)) bits.old }
{
    let mut step = power::power_of_five(height);
    let mut own = b;
    for _low in height..m {
        own = parents::parent_bits(keys, bits, key, own, step);
        step *= 5;
        let place = search::place(keys, key / step * step);
        bits[place] = own;
    }
}
