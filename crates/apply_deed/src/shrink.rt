// The list becomes what is left of it on the way to the list after the step, in one descent towards the front: a block of one feature after the step is one
// record, a leaf that has to grow stays as it is, and the nodes have their new bits. The descent counts the list after the step, which grows out of what is left.
ghost use Rattle.std.specs.Prelude.{◌≡◌, cond, eqb};
ghost use Rattle.deeds.specs.Deed.{LeafAsked};
ghost use Rattle.deeds.specs.Doing.{step_by};
ghost use Rattle.apply_deed.specs.Shrink.{ShrinkAsked, Shrinks, is_decided, KeepAsked, KeptForward, OneAsked, LeafShrunk, OwnShrunk};

use crate::slide::Places;
use crate::tally;
use build::count;
use build::count::Tally;
use deeds::doing::Doing;
use deeds::meeting::Meeting;
use keys::block::{TreeBlock, child, end};
use list::check;

// A block's bits and its number of records after the step, and the places after its records before it and after what is left of them.
#[derive(Clone, Copy)]
pub struct Shrunk {
    pub tally: Tally,
    pub at: Places,
}

// The block stays as it is, or becomes one leaf.
fn is_decided(meeting: Meeting) -> bool
    ensures { result ≡ is_decided meeting }
{
    matches!(meeting, Meeting::Apart | Meeting::Leaf(_))
}

// The records of a block that stays as it is, or a leaf for them. Gives the place after them.
fn keep(
    meeting: Meeting,
    key: u32,
    at: usize,
    next: usize,
    place: usize,
    keys: &mut [u32],
    bits: &mut [u32],
) -> usize
    requires { KeepAsked keys.old bits.old at next place }
    ensures { KeptForward meeting key keys.old bits.old at next place keys.new bits.new result }
{
    match meeting {
        Meeting::Apart => {
            let count = next - at;
            slices::shift(keys, at, count, place);
            slices::shift(bits, at, count, place);
            place + count
        }
        Meeting::Leaf(after) => {
            keys[place] = key;
            bits[place] = after;
            place + 1
        }
        Meeting::Content(_, _) | Meeting::Cut => place,
    }
}

// The bits of a leaf that is left: those after the step where it stays one record, else those before, since it has to grow.
fn bits_left(own: u32, tally: Tally) -> u32
    ensures { result ≡ cond (eqb tally.count 1) tally.bits own }
{
    if tally.count == 1 { tally.bits } else { own }
}

// A leaf after the step where it stays one; where it has to grow, the leaf before it.
fn shrink_leaf(
    doing: Doing,
    own: u32,
    block: TreeBlock,
    at: Places,
    keys: &mut [u32],
    bits: &mut [u32],
) -> Shrunk
    requires leaf_asked { LeafAsked doing.m own block }
    requires one_asked { OneAsked keys.old bits.old at.read at.write }
    ensures { LeafShrunk (step_by doing.entry) own block keys.old bits.old at.read at.write keys.new bits.new result.tally.bits result.tally.count result.at.read result.at.write }
{
    let tally = tally::tally_leaf(doing, own, block);
    let place = at.write;
    keys[place] = block.key;
    bits[place] = bits_left(own, tally);
    let read = at.read + 1;
    let write = place + 1;
    let past = Places { read, write };
    Shrunk { tally, at: past }
}

// The own record of a node, once its quadrants have shrunk: they are dropped where all of them have the same feature. Gives the place after what is left.
fn shrink_own(
    key: u32,
    union: u32,
    place: usize,
    last: usize,
    keys: &mut [u32],
    bits: &mut [u32],
) -> usize
    requires { OneAsked keys.old bits.old place place }
    ensures { OwnShrunk key union keys.old bits.old place last keys.new bits.new result }
{
    keys[place] = key;
    bits[place] = union;
    let alone = place + 1;
    if check::has_one_slot(union) {
        return alone;
    }
    last
}

// The records of a block, which stand from one place on, shrink to stand from another on, at or before it. The list ends at n, and the slices go on behind it,
// where it will grow. The quadrants are four calls, since each begins at the places where the one before ended.
pub fn shrink(
    doing: Doing,
    block: TreeBlock,
    at: Places,
    n: usize,
    keys: &mut [u32],
    bits: &mut [u32],
) -> Shrunk
    requires { ShrinkAsked doing.m block keys.old bits.old at.read n at.write }
    ensures { Shrinks (step_by doing.entry) block keys.old bits.old at.read n at.write keys.new bits.new result.tally.bits result.tally.count result.at.read result.at.write }
{
    let read = at.read;
    let place = at.write;
    let own = bits[read];
    if check::has_one_slot(own) {
        return shrink_leaf(doing, own, block, at, keys, bits);
    }
    let here = doing.narrowed(block);
    let met = here.meeting(block);
    if is_decided(met) {
        let passed = tally::pass_over(met, own, end(block), read, keys, n, here.log_values);
        let tally = passed.tally;
        let next = passed.next;
        let write = keep(met, block.key, read, next, place, keys, bits);
        let past = Places { read: next, write };
        return Shrunk { tally, at: past };
    }
    let read = read + 1;
    let write = place + 1;
    let below = Places { read, write };
    let part = child(block, 1);
    let nw = shrink(here, part, below, n, keys, bits);
    let part = child(block, 2);
    let ne = shrink(here, part, nw.at, n, keys, bits);
    let part = child(block, 3);
    let sw = shrink(here, part, ne.at, n, keys, bits);
    let part = child(block, 4);
    let se = shrink(here, part, sw.at, n, keys, bits);
    let tally = count::joined(nw.tally, ne.tally, sw.tally, se.tally);
    let last = se.at;
    let write = shrink_own(block.key, tally.bits, place, last.write, keys, bits);
    let read = last.read;
    let past = Places { read, write };
    Shrunk { tally, at: past }
}
