// Every leaf becomes what the step makes of its feature, from the last quadrant to the first, so that a block is known where its leaf is met.
ghost use Rattle.deeds.specs.Doing.{step_by};
ghost use Rattle.apply_deed.specs.Passes.{OwnAsked, OwnWritten, GrowAsked, Grown};

use crate::slide::Places;
use crate::{slide, spread};
use deeds::doing::Doing;
use keys::block::{TreeBlock, child};

// The own record of a node, which stays itself, goes before what its quadrants have grown to.
fn write_own(key: u32, at: Places, keys: &mut [u32], bits: &mut [u32]) -> Places
    requires { OwnAsked at.read at.write keys.old bits.old }
    ensures { OwnWritten key at.read at.write keys.old bits.old keys.new bits.new result.read result.write }
{
    let read = at.read - 1;
    let write = at.write - 1;
    let b = bits[read];
    keys[write] = key;
    bits[write] = b;
    Places { read, write }
}

// The records of a block, which end before one place, grow to end before another. The last of them has the block's own key exactly where it is the
// only one, a leaf; of a node it lies under the last quadrant. A node that stays as it is moves as a whole. The quadrants are four calls, since each ends at the
// places where the one after it begins.
pub fn grow(
    doing: Doing,
    block: TreeBlock,
    at: Places,
    keys: &mut [u32],
    bits: &mut [u32],
) -> Places
    requires { GrowAsked (step_by doing) doing.m block keys.old bits.old at.read at.write }
    ensures { Grown (step_by doing.entry) block keys.old bits.old at.read at.write keys.new bits.new result.read result.write }
{
    let read = at.read;
    let write = at.write;
    let last = read - 1;
    let found = keys[last];
    if found == block.key {
        let b = bits[last];
        let start = spread::write_leaf(doing, b, block, write, keys, bits);
        return Places {
            read: last,
            write: start,
        };
    }
    let here = doing.narrowed(block);
    let met = here.meeting(block);
    if slide::stays(met, read, write) {
        return slide::slide(block.key, read, write, keys, bits);
    }
    let se = grow(here, child(block, 4), at, keys, bits);
    let sw = grow(here, child(block, 3), se, keys, bits);
    let ne = grow(here, child(block, 2), sw, keys, bits);
    let nw = grow(here, child(block, 1), ne, keys, bits);
    write_own(block.key, nw, keys, bits)
}
