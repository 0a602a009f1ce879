// The bits of a block by the list, and those of a parent by its four children: what a way up from a block to the root asks at each level. Only the keys must
// be in order: while a list is changed the bits of the blocks above may still be old.
ghost use Rattle.std.specs.Prelude.{◌≡◌, ◌≤◌, ◌<◌, ◌^◌, length};
ghost use Rattle.keys.specs.Key.{all_keys};
ghost use Rattle.definitions.specs.Read.{records_of};
ghost use Rattle.list.specs.Sorted.{Sorted};
ghost use Rattle.replace.specs.Family.{block_bits, child_bits, wider_bits};

use keys::Key;
use list::search;

// The bits of a block by the list: those of the last record at or before its key.
pub fn bits_at(keys: &[u32], bits: &[u32], x: u32) -> u32
    requires sorted { Sorted keys.now (length keys.now) x }
    requires paired { length keys.now ≤ length bits.now }
    ensures { result ≡ block_bits x (records_of keys.now bits.now (length keys.now)) }
{
    bits[search::place(keys, x)]
}

// The same for a child of a block, where the child with key own has got the bits b and the list still has the old ones.
fn child_bits(keys: &[u32], bits: &[u32], own: u32, b: u32, x: u32) -> u32
    requires sorted { Sorted keys.now (length keys.now) 0 }
    requires paired { length keys.now ≤ length bits.now }
    ensures { result ≡ child_bits (records_of keys.now bits.now (length keys.now)) own b x }
{
    if x == own { b } else { bits_at(keys, bits, x) }
}

// The bits of the block around key with five times as many keys as step says, where the one with step keys has got the bits b. The four children are joined two
// by two, as the definition of a union has it.
pub fn parent_bits(keys: &[u32], bits: &[u32], key: u32, b: u32, step: u32) -> u32
    requires sorted { Sorted keys.now (length keys.now) 0 }
    requires paired { length keys.now ≤ length bits.now }
    requires key_lt_all_keys { (key < all_keys) × (1 ≤ step) × (step ≤ 5 ^ 9) }
    ensures { result ≡ wider_bits (records_of keys.now bits.now (length keys.now)) key b step }
{
    let own = Key::enclosing(key, step);
    let parent = Key::parent(key, step);
    let nw = child_bits(keys, bits, own, b, Key::child(parent, step, 1));
    let ne = child_bits(keys, bits, own, b, Key::child(parent, step, 2));
    let sw = child_bits(keys, bits, own, b, Key::child(parent, step, 3));
    let se = child_bits(keys, bits, own, b, Key::child(parent, step, 4));
    (nw | ne) | (sw | se)
}
