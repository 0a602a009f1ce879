// The check of a pair (refusal 23): one pass over the blocks in key order, in which nothing is written.
ghost use Rattle.std.specs.Prelude.{◌≡◌, ◌≤◌};
ghost use Rattle.bit_strings.specs.Steps.{pair_length};

use crate::{bits, next};
use keys::power;

// The number of records that a pair has, where it is one.
pub fn count_records(m: u32, nodes: &[u8], leaves: &[u8]) -> Option<usize>
    requires { m ≤ 10 }
    ensures { result ≡ pair_length m nodes.now leaves.now }
{
    let end = power::power_of_five(m);
    let mut key = 0;
    let mut i: usize = 0;
    let mut j: usize = 0;
    // The key goes from block to block, so it is no index that a range could count.
    while key < end {
        let passed = next::pass(m, key, nodes, leaves, i, j)?;
        key = passed.key;
        j += usize::from(passed.leaf);
        i += 1;
    }
    if !bits::only_spare(nodes, i) {
        return None;
    }
    if !bits::only_spare(leaves, j) {
        return None;
    }
    Some(i)
}
