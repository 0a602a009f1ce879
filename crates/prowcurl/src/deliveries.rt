// Leaf lists for C: reading a delivery, and writing the leaves of a list.
ghost use Rattle.std.specs.Prelude.{◌≡◌};
ghost use Rattle.definitions.specs.Calls.ReadLeaves.{read_leaves, read_leaves_keys, read_leaves_bits};
ghost use Rattle.definitions.specs.Calls.WriteLeaves.{write_leaves, written_leaf_keys, written_leaf_features};

use definitions::Counted;
use leaves::calls;

#[unsafe(no_mangle)]
pub extern "C" fn hlq_read_leaves(
    m: u32,
    s: u32,
    leaf_keys: &[u32],
    leaf_features: &[u32],
    leaves: usize,
    keys: &mut [u32],
    bits: &mut [u32],
) -> Counted
    ensures value { result ≡ read_leaves m s leaf_keys.now leaf_features.now leaves keys.old bits.old }
    ensures keys_after { keys.new ≡ read_leaves_keys m s leaf_keys.now leaf_features.now leaves keys.old bits.old }
    ensures bits_after { bits.new ≡ read_leaves_bits m s leaf_keys.now leaf_features.now leaves keys.old bits.old }
{
    calls::read_leaves(m, s, leaf_keys, leaf_features, leaves, keys, bits).into()
}

#[unsafe(no_mangle)]
pub extern "C" fn hlq_write_leaves(
    m: u32,
    s: u32,
    keys: &[u32],
    bits: &[u32],
    n: usize,
    leaf_keys: &mut [u32],
    leaf_features: &mut [u32],
) -> Counted
    ensures value { result ≡ write_leaves m s keys.now bits.now n leaf_keys.old leaf_features.old }
    ensures leaf_keys_after { leaf_keys.new ≡ written_leaf_keys m s keys.now bits.now n leaf_keys.old leaf_features.old }
    ensures leaf_features_after { leaf_features.new ≡ written_leaf_features m s keys.now bits.now n leaf_keys.old leaf_features.old }
{
    calls::write_leaves(m, s, keys, bits, n, leaf_keys, leaf_features).into()
}
