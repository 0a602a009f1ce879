// Counting the records of two combined lists, without writing any: one recursion over the blocks goes down both lists together.
ghost use Rattle.combine.specs.Combining.{CombineAsked, CombinedCounted};

use crate::cursor::Pair;
use crate::{classes, cursor};
use build::count;
use build::count::Tally;

// The tally of a combined block, and both lists past it.
#[derive(Clone, Copy)]
pub struct CombinedTally {
    pub tally: Tally,
    pub next: Pair,
}

// A block that is a leaf in both lists is one record. Else its quadrants are counted: what is a leaf in one list alone waits there.
pub fn count_block(
    bits1: &[u32],
    bits2: &[u32],
    table: &[u8],
    s2: usize,
    step: u32,
    at: Pair,
) -> CombinedTally
    requires { CombineAsked bits1.now bits2.now table.now s2 step at }
    ensures { CombinedCounted bits1.now bits2.now table.now s2 step at result.tally.bits result.tally.count result.next }
{
    let here = cursor::enter_both(bits1, bits2, at);
    if let Some(leaves) = cursor::both_leaves(here) {
        let bits = classes::class_bits(table, s2, leaves.0, leaves.1);
        let tally = Tally { bits, count: 1 };
        let next = cursor::passed(at, here);
        return CombinedTally { tally, next };
    }
    let lower = step / 5;
    let nw = count_block(bits1, bits2, table, s2, lower, here);
    let ne = count_block(bits1, bits2, table, s2, lower, nw.next);
    let sw = count_block(bits1, bits2, table, s2, lower, ne.next);
    let se = count_block(bits1, bits2, table, s2, lower, sw.next);
    let tally = count::joined(nw.tally, ne.tally, sw.tally, se.tally);
    let next = cursor::passed(at, se.next);
    CombinedTally { tally, next }
}
