// The two calls of leaf lists. They refuse by their tables, and require nothing.
ghost use Rattle.std.specs.Prelude.{◌≡◌, false, cond, length, Some, None};
ghost use Rattle.definitions.specs.Answered.{as_counted};
ghost use Rattle.definitions.specs.Leaves.{is_delivery};
ghost use Rattle.definitions.specs.Refusal.{bad_settings};
ghost use Rattle.definitions.specs.Calls.ReadLeaves.{list_delivered, read_leaves, read_leaves_keys, read_leaves_bits};
ghost use Rattle.definitions.specs.Calls.WriteLeaves.{write_leaves, written_leaf_keys, written_leaf_features};

use crate::{count, lay, pick};
use definitions::refusal::Refusal;
use list::settings;

// How many records the list of the first leaves of two slices has, where they are a delivery.
fn delivered(
    m: u32,
    s: u32,
    leaf_keys: &[u32],
    leaf_features: &[u32],
    leaves: usize,
) -> Option<usize>
    requires { bad_settings m s ≡ false }
    ensures { result ≡ cond (is_delivery m s leaf_keys.now leaf_features.now leaves)
        (Some (length (list_delivered m leaf_keys.now leaf_features.now leaves)))
        None }
{
    if leaf_keys.len().min(leaf_features.len()) < leaves {
        return None;
    }
    count::records_of(m, s, &leaf_keys[..leaves], &leaf_features[..leaves])
}

// A delivery becomes the list of the raster that it describes. That there is room is known before the first write.
pub fn read_leaves(
    m: u32,
    s: u32,
    leaf_keys: &[u32],
    leaf_features: &[u32],
    leaves: usize,
    keys: &mut [u32],
    bits: &mut [u32],
) -> Result<usize, Refusal>
    ensures value { as_counted result ≡ read_leaves m s leaf_keys.now leaf_features.now leaves keys.old bits.old }
    ensures keys_after { keys.new ≡ read_leaves_keys m s leaf_keys.now leaf_features.now leaves keys.old bits.old }
    ensures bits_after { bits.new ≡ read_leaves_bits m s leaf_keys.now leaf_features.now leaves keys.old bits.old }
{
    if settings::are_bad(m, s) {
        return Err(Refusal::Settings);
    }
    let Some(n) = delivered(m, s, leaf_keys, leaf_features, leaves) else {
        return Err(Refusal::Leaves);
    };
    if keys.len().min(bits.len()) < n {
        return Err(Refusal::ListRoom);
    }
    lay::lay_list(
        m,
        s,
        &leaf_keys[..leaves],
        &leaf_features[..leaves],
        keys,
        bits,
    );
    Ok(n)
}

// How many leaves a list has, once they are written. Of its records one in four below the root's, rounded up, is a node: so their number is known
// without a pass.
pub fn write_leaves(
    m: u32,
    s: u32,
    keys: &[u32],
    bits: &[u32],
    n: usize,
    leaf_keys: &mut [u32],
    leaf_features: &mut [u32],
) -> Result<usize, Refusal>
    ensures value { as_counted result ≡ write_leaves m s keys.now bits.now n leaf_keys.old leaf_features.old }
    ensures leaf_keys_after { leaf_keys.new ≡ written_leaf_keys m s keys.now bits.now n leaf_keys.old leaf_features.old }
    ensures leaf_features_after { leaf_features.new ≡ written_leaf_features m s keys.now bits.now n leaf_keys.old leaf_features.old }
{
    let list = list::accept(m, s, keys, bits, n)?;
    let leaves = n - n / 4;
    if leaf_keys.len().min(leaf_features.len()) < leaves {
        return Err(Refusal::AnswerRoom(leaves as u64));
    }
    pick::pick(&list, leaf_keys, leaf_features);
    Ok(leaves)
}
