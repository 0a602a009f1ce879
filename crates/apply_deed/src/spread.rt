// What a leaf grows to after the step, written before a place in one descent from the last quadrant to the first: the records below it, and then its own.
ghost use Rattle.definitions.specs.Bits.{feature_of, union_of_four};
ghost use Rattle.deeds.specs.Step.{plain, step_over};
ghost use Rattle.deeds.specs.Deed.{LeafAsked};
ghost use Rattle.deeds.specs.Doing.{step_by};
ghost use Rattle.apply_deed.specs.Passes.{list_at, WriteAsked, WroteBefore, FittingBefore, WrittenBefore, Layable, LeafLaid, SettleAsked, FourSettled};

use build::write;
use build::write::Below;
use deeds::doing::Doing;
use deeds::meeting::Meeting;
use keys::block::{TreeBlock, child};
use keys::power;
use list::check;

// The bits of a block, and the place of its own record, which lies before the records below it. A block with nothing below it may end at the first place: its own
// place is then told as the first one too, and nobody writes there.
#[derive(Clone, Copy)]
pub struct Foremost {
    pub bits: u32,
    pub place: usize,
}

// The records below a leaf whose quadrants need not be asked: a content's are copied, and otherwise there are none.
fn lay(
    meeting: Meeting,
    own: u32,
    log_keys: &[u32],
    log_values: &[u32],
    end: usize,
    keys: &mut [u32],
    bits: &mut [u32],
) -> Foremost
    requires { Layable meeting log_keys.now log_values.now end keys.old bits.old }
    ensures { LeafLaid meeting own log_keys.now log_values.now end keys.old bits.old keys.new bits.new result.bits result.place }
{
    let alone = end.saturating_sub(1);
    match meeting {
        Meeting::Apart => Foremost {
            bits: own,
            place: alone,
        },
        Meeting::Leaf(b) => Foremost {
            bits: b,
            place: alone,
        },
        Meeting::Content(start, count) => {
            let place = end - count;
            let first = place + 1;
            slices::copy(log_keys, start + 1, count - 1, keys, first);
            slices::copy(log_values, start + 1, count - 1, bits, first);
            Foremost {
                bits: log_values[start],
                place,
            }
        }
        Meeting::Cut => Foremost {
            bits: 0,
            place: alone,
        },
    }
}

// The own records of four quadrants, where the four have several features together; else nothing was written, and nothing is.
fn settle_four(
    block: TreeBlock,
    end: usize,
    nw: Foremost,
    ne: Foremost,
    sw: Foremost,
    se: Foremost,
    keys: &mut [u32],
    bits: &mut [u32],
) -> Foremost
    requires { SettleAsked block nw.place ne.place sw.place se.place (union_of_four nw.bits ne.bits sw.bits se.bits) keys.old bits.old }
    ensures { FourSettled block end nw.bits ne.bits sw.bits se.bits nw.place ne.place sw.place se.place keys.old bits.old keys.new bits.new result.bits result.place }
{
    let north = nw.bits | ne.bits;
    let south = sw.bits | se.bits;
    let union = north | south;
    if check::has_one_slot(union) {
        return Foremost {
            bits: union,
            place: end.saturating_sub(1),
        };
    }
    let place = nw.place - 1;
    let first = Below {
        bits: nw.bits,
        next: ne.place,
    };
    let second = Below {
        bits: ne.bits,
        next: sw.place,
    };
    let third = Below {
        bits: sw.bits,
        next: se.place,
    };
    let fourth = Below {
        bits: se.bits,
        next: end,
    };
    let lower = block.height - 1;
    let step = power::power_of_five(lower);
    let key = block.key;
    let wrote = write::write_four(key, step, place, first, second, third, fourth, keys, bits);
    Foremost {
        bits: wrote.bits,
        place,
    }
}

// Writes the records below a leaf after the step, and not its own: only its parent knows whether it is listed. The quadrants are four calls, since each ends at
// the place where the one after it begins.
fn spread(
    doing: Doing,
    own: u32,
    block: TreeBlock,
    end: usize,
    keys: &mut [u32],
    bits: &mut [u32],
) -> Foremost
    requires leaf_asked { LeafAsked doing.m own block }
    requires fitting_before { FittingBefore (step_over (step_by doing) (plain (feature_of own))) block end keys.old bits.old }
    ensures { WrittenBefore (step_over (step_by doing.entry) (plain (feature_of own))) block end keys.old bits.old keys.new bits.new result.bits result.place }
{
    let here = doing.narrowed(block);
    let met = here.meeting(block);
    if !met.is_cut() {
        return lay(met, own, here.log_keys, here.log_values, end, keys, bits);
    }
    let part = child(block, 4);
    let se = spread(here, own, part, end, keys, bits);
    let part = child(block, 3);
    let sw = spread(here, own, part, se.place, keys, bits);
    let part = child(block, 2);
    let ne = spread(here, own, part, sw.place, keys, bits);
    let part = child(block, 1);
    let nw = spread(here, own, part, ne.place, keys, bits);
    settle_four(block, end, nw, ne, sw, se, keys, bits)
}

// What a leaf grows to, written before a place; the first of its places is given back.
pub fn write_leaf(
    doing: Doing,
    b: u32,
    block: TreeBlock,
    end: usize,
    keys: &mut [u32],
    bits: &mut [u32],
) -> usize
    requires leaf_asked { LeafAsked doing.m b block }
    requires write_asked { WriteAsked (list_at (step_over (step_by doing) (plain (feature_of b))) block) block.key end keys.old bits.old }
    ensures { WroteBefore (list_at (step_over (step_by doing.entry) (plain (feature_of b))) block) end keys.old bits.old keys.new bits.new result }
{
    let grown = spread(doing, b, block, end, keys, bits);
    let start = grown.place;
    keys[start] = block.key;
    bits[start] = grown.bits;
    start
}
