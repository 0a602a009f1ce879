// The leaves of a list: one pass over its records.
ghost use Rattle.std.specs.Prelude.{◌≡◌, ◌+◌, ◌≤◌, length, [], ◌∷◌};
ghost use Rattle.std.proofs.lemmas.List.Edits.{sets};
ghost use Rattle.definitions.specs.List.{record_of, keys_of, values_of};
ghost use Rattle.definitions.specs.Read.{room};
ghost use Rattle.definitions.specs.Leaves.{leaves_of};
ghost use Rattle.definitions.specs.Buffer.{over};
ghost use Rattle.list.specs.Taken.{records_listed};

use crate::features;
use list::accepted_list::Accepted;
use list::check;

// A record is written at a place where it is a leaf's; the place after it.
fn pick_one(
    key: u32,
    bits: u32,
    at: usize,
    leaf_keys: &mut [u32],
    leaf_features: &mut [u32],
) -> usize
    requires { at + length (leaves_of (record_of key bits ∷ [])) ≤ room leaf_keys.old leaf_features.old }
    ensures { (result ≡ at + length (leaves_of (record_of key bits ∷ [])))
        × (leaf_keys.new ≡ sets leaf_keys.old at (keys_of (leaves_of (record_of key bits ∷ []))))
        × (leaf_features.new ≡ sets leaf_features.old at (values_of (leaves_of (record_of key bits ∷ [])))) }
{
    if !check::has_one_slot(bits) {
        return at;
    }
    leaf_keys[at] = key;
    leaf_features[at] = features::feature_of(bits);
    at + 1
}

// The leaves of an accepted list, from place 0 on.
pub fn pick(list: &Accepted<'_>, leaf_keys: &mut [u32], leaf_features: &mut [u32])
    requires { length (leaves_of (records_listed list.now)) ≤ room leaf_keys.old leaf_features.old }
    ensures leaf_keys_after { leaf_keys.new ≡ over (keys_of (leaves_of (records_listed list.now))) leaf_keys.old }
    ensures leaf_features_after { leaf_features.new ≡ over (values_of (leaves_of (records_listed list.now))) leaf_features.old }
{
    let mut at = 0;
    for i in 0..list.keys.len() {
        at = pick_one(list.keys[i], list.bits[i], at, leaf_keys, leaf_features);
    }
}
