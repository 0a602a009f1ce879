// The pixel counts of one block of a list: one pass over the bitstrings of its records. One slot is a leaf, which adds its area to one counter;
// else four children follow.
ghost use Rattle.std.specs.Prelude.{◌≡◌, true, ◌+◌, ◌^◌, ◌<◌};
ghost use Rattle.keys.specs.Key.{valid_key, height_of};
ghost use Rattle.keys.specs.Block.{row_of, column_of};
ghost use Rattle.definitions.specs.Bits.{feature_of};
ghost use Rattle.definitions.specs.Area.{counts_of};
ghost use Rattle.list.specs.Check.{one_slot};
ghost use Rattle.list.specs.Taken.{picture_listed};
ghost use Rattle.summary.specs.Count.{with_pixels, CountersFit, NodeAt, NodeCounted};

use list::accepted_list::Accepted;
use list::{check, feature};

// A leaf adds its area to the counter of its feature.
pub fn count_leaf(counts: &mut [u32; 32], bits: u32, area: u32)
    requires { (one_slot bits ≡ true) × CountersFit counts.old area }
    ensures { counts.new ≡ with_pixels counts.old (feature_of bits) area }
{
    let feature = feature::feature_of(bits);
    counts[feature] = counts[feature] + area;
}

// The node of four pixels whose record is at a place of the bitstrings. Nearly all nodes have four or sixteen pixels, so these have functions of their own,
// without recursion. All four leaves are read before a counter is written: so the machine need not wait between them.
pub fn count_pixels(bits: &[u32], counts: &mut [u32; 32], at: usize)
    requires { NodeAt bits.now at 4 × CountersFit counts.old 4 }
    ensures { NodeCounted bits.now at 4 counts.old counts.new (at + 5) }
{
    let nw = bits[at + 1];
    let ne = bits[at + 2];
    let sw = bits[at + 3];
    let se = bits[at + 4];
    count_leaf(counts, nw, 1);
    count_leaf(counts, ne, 1);
    count_leaf(counts, sw, 1);
    count_leaf(counts, se, 1);
}

// The same of sixteen pixels. The place after the node's last record is given back.
fn count_sixteen(bits: &[u32], counts: &mut [u32; 32], at: usize) -> usize
    requires { NodeAt bits.now at 16 × CountersFit counts.old 16 }
    ensures { NodeCounted bits.now at 16 counts.old counts.new result }
{
    let mut next = at + 1;
    for d in 0u32..4 {
        let found = bits[next];
        if check::is_leaf(found) {
            count_leaf(counts, found, 4);
            next += 1;
        } else {
            count_pixels(bits, counts, next);
            next += 5;
        }
    }
    next
}

// The same of any number of pixels. A leaf among the four children is counted here, so that only nodes are called for.
fn count_node(bits: &[u32], counts: &mut [u32; 32], at: usize, area: u32) -> usize
    requires { NodeAt bits.now at area × CountersFit counts.old area }
    ensures { NodeCounted bits.now at area counts.old counts.new result }
{
    let quarter = area / 4;
    let mut next = at + 1;
    for d in 0u32..4 {
        let found = bits[next];
        if check::is_leaf(found) {
            count_leaf(counts, found, quarter);
            next += 1;
        } else if quarter == 16 {
            next = count_sixteen(bits, counts, next);
        } else {
            next = count_node(bits, counts, next, quarter);
        }
    }
    next
}

// The counts of a block of the list, of all 32 features that a bitstring has a slot for. Where the block is a leaf, or lies inside one, its pixels
// have one feature.
pub fn count_block(list: &Accepted<'_>, key: u32, area: u32) -> [u32; 32]
    requires { (valid_key list.now.m key ≡ true) × (area ≡ 4 ^ height_of list.now.m key) }
    ensures { result ≡ counts_of 32 (picture_listed list.now) (height_of list.now.m key) (row_of list.now.m key) (column_of list.now.m key) }
{
    let mut counts = [0u32; 32];
    let place = list.place(key);
    let own = list.bits[place];
    if check::has_one_slot(own) {
        count_leaf(&mut counts, own, area);
    } else {
        let _end = count_node(list.bits, &mut counts, place, area);
    }
    counts
}
