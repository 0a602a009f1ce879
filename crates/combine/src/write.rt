// Writing the records of two combined lists: one recursion over the blocks goes down both lists together, and quadrants are merged by build's rule.
ghost use Rattle.combine.specs.Combining.{CombineWriteAsked, Made};

use crate::cursor::Pair;
use crate::{classes, cursor};
use build::write::{Below, write_four};
use keys::span::{KeySpan, child};

// What is written below a combined block, and both lists past it.
#[derive(Clone, Copy)]
pub struct Writing {
    pub below: Below,
    pub next: Pair,
}

// Writes the records below a combined block, and not its own: only its parent knows whether it is listed. A block that is a leaf in both lists has
// nothing below it.
pub fn write_block(
    bits1: &[u32],
    bits2: &[u32],
    table: &[u8],
    s2: usize,
    span: KeySpan,
    at: Pair,
    place: usize,
    keys: &mut [u32],
    bits: &mut [u32],
) -> Writing
    requires { CombineWriteAsked bits1.now bits2.now table.now s2 span at place keys.old bits.old }
    ensures { Made bits1.now bits2.now table.now s2 span at place keys.old bits.old keys.new bits.new result.below.bits result.below.next result.next }
{
    let here = cursor::enter_both(bits1, bits2, at);
    let first = place + 1;
    if let Some(leaves) = cursor::both_leaves(here) {
        let own = classes::class_bits(table, s2, leaves.0, leaves.1);
        let below = Below {
            bits: own,
            next: first,
        };
        let next = cursor::passed(at, here);
        return Writing { below, next };
    }
    let nw_span = child(span, 1);
    let nw = write_block(bits1, bits2, table, s2, nw_span, here, first, keys, bits);
    let next = nw.below.next;
    let ne_span = child(span, 2);
    let ne = write_block(bits1, bits2, table, s2, ne_span, nw.next, next, keys, bits);
    let next = ne.below.next;
    let sw_span = child(span, 3);
    let sw = write_block(bits1, bits2, table, s2, sw_span, ne.next, next, keys, bits);
    let next = sw.below.next;
    let se_span = child(span, 4);
    let se = write_block(bits1, bits2, table, s2, se_span, sw.next, next, keys, bits);
    let step = span.step / 5;
    let below = write_four(
        span.key, step, place, nw.below, ne.below, sw.below, se.below, keys, bits,
    );
    let next = cursor::passed(at, se.next);
    Writing { below, next }
}
