// Counting what a list becomes by a step, with nothing written: build's count, with the step over the list's own features as the picture.
ghost use Rattle.std.specs.Prelude.{◌≡◌, length};
ghost use Rattle.definitions.specs.Bits.{feature_of};
ghost use Rattle.build.specs.BuildBlocks.{Tallied};
ghost use Rattle.deeds.specs.Step.{plain, step_over};
ghost use Rattle.deeds.specs.Deed.{LeafAsked};
ghost use Rattle.deeds.specs.Doing.{step_by};
ghost use Rattle.apply_deed.specs.Passes.{Shown, StepCounted, EndAsked, Readable, known_of, PassedOver};

use crate::block_end;
use build::count;
use build::count::Tally;
use deeds::doing::Doing;
use deeds::meeting::Meeting;
use keys::block::{TreeBlock, child, end};
use list::check;

// A block by its meeting with the step, where its quadrants need not be asked: its bits and its records are its own, or the leaf's, or the content's.
fn known(meeting: Meeting, own: u32, records: usize, log_values: &[u32]) -> Tally
    requires { Readable meeting log_values.now }
    ensures { result ≡ known_of meeting own records log_values.now }
{
    match meeting {
        Meeting::Apart => Tally {
            bits: own,
            count: records,
        },
        Meeting::Leaf(bits) => Tally { bits, count: 1 },
        Meeting::Content(start, count) => Tally {
            bits: log_values[start],
            count,
        },
        Meeting::Cut => Tally { bits: 0, count: 0 },
    }
}

// A leaf after the step: its bits, and how many records it becomes. The quadrants are four calls, as build's sum takes the four by name.
pub fn tally_leaf(doing: Doing, own: u32, block: TreeBlock) -> Tally
    requires { LeafAsked doing.m own block }
    ensures { Tallied (step_over (step_by doing.entry) (plain (feature_of own))) block.height block.row block.column result.bits result.count }
{
    let here = doing.narrowed(block);
    let met = here.meeting(block);
    if !met.is_cut() {
        return known(met, own, 1, here.log_values);
    }
    let nw = tally_leaf(here, own, child(block, 1));
    let ne = tally_leaf(here, own, child(block, 2));
    let sw = tally_leaf(here, own, child(block, 3));
    let se = tally_leaf(here, own, child(block, 4));
    count::joined(nw, ne, sw, se)
}

// A block's bits and number of records after the step, and the place after its records before it.
#[derive(Clone, Copy)]
pub struct PassedBlock {
    pub tally: Tally,
    pub next: usize,
}

// A node whose quadrants need not be asked: the place after its records is looked for, not walked to. The records end at n; where a list shrinks, the slice
// goes on behind them.
pub fn pass_over(
    meeting: Meeting,
    own: u32,
    past: u32,
    at: usize,
    keys: &[u32],
    n: usize,
    log_values: &[u32],
) -> PassedBlock
    requires { Readable meeting log_values.now × EndAsked keys.now at n past }
    ensures { PassedOver meeting own past at keys.now n log_values.now result.tally result.next }
{
    let next = block_end::block_end(keys, at, n, past);
    PassedBlock {
        tally: known(meeting, own, next - at, log_values),
        next,
    }
}

// The records of a block, from a place on, after the step. Those of a node are passed over where one look tells what becomes of it. The quadrants are four
// calls, since each begins at the place where the one before ended.
pub fn tally_records(
    doing: Doing,
    block: TreeBlock,
    at: usize,
    keys: &[u32],
    bits: &[u32],
) -> PassedBlock
    requires { Shown doing.m block keys.now bits.now at (length keys.now) }
    ensures { StepCounted (step_by doing.entry) block keys.now bits.now at (length keys.now) result.tally.bits result.tally.count result.next }
{
    let own = bits[at];
    if check::has_one_slot(own) {
        let tally = tally_leaf(doing, own, block);
        let next = at + 1;
        return PassedBlock { tally, next };
    }
    let here = doing.narrowed(block);
    let met = here.meeting(block);
    if !met.is_cut() {
        return pass_over(met, own, end(block), at, keys, keys.len(), here.log_values);
    }
    let first = at + 1;
    let part = child(block, 1);
    let nw = tally_records(here, part, first, keys, bits);
    let part = child(block, 2);
    let ne = tally_records(here, part, nw.next, keys, bits);
    let part = child(block, 3);
    let sw = tally_records(here, part, ne.next, keys, bits);
    let part = child(block, 4);
    let se = tally_records(here, part, sw.next, keys, bits);
    let tally = count::joined(nw.tally, ne.tally, sw.tally, se.tally);
    let next = se.next;
    PassedBlock { tally, next }
}
