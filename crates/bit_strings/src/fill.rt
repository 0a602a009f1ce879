// The records of a pair go into two slices.
ghost use Rattle.std.specs.Prelude.{◌≡◌, cond, drop, eqb};
ghost use Rattle.definitions.specs.List.{keys_of, values_of};
ghost use Rattle.definitions.specs.Buffer.{over};
ghost use Rattle.definitions.specs.BitStrings.{bits_in, leaf_value, inner_value, records_of_pair};
ghost use Rattle.bit_strings.specs.Steps.{Fits};

use crate::{bits, next};

// The bitstring of a leaf (1), whose feature stands at place j, or of an inner node (every other number).
pub fn value_at(leaves: &[u8], j: usize, leaf: u32) -> u32
    ensures { result ≡ cond (eqb leaf 1) (leaf_value (drop j (bits_in leaves.now))) inner_value }
{
    if leaf != 1 {
        return 3;
    }
    match bits::bit_at(leaves, j) {
        Some(feature) => 1 + u32::from(feature),
        None => 1,
    }
}

pub fn fill(m: u32, nodes: &[u8], leaves: &[u8], n: usize, keys: &mut [u32], bits: &mut [u32])
    requires { Fits m nodes.now leaves.now n keys.old bits.old }
    ensures keys_after { keys.new ≡ over (keys_of (records_of_pair m nodes.now leaves.now)) keys.old }
    ensures bits_after { bits.new ≡ over (values_of (records_of_pair m nodes.now leaves.now)) bits.old }
{
    let mut key = 0;
    let mut j: usize = 0;
    for i in 0..n {
        let leaf = u32::from(bits::bit_at(nodes, i).unwrap());
        keys[i] = key;
        bits[i] = value_at(leaves, j, leaf);
        key = next::key_after(m, key, leaf);
        j += leaf as usize;
    }
}
