// The features of leaves: whether one is refused, and the feature of a record's one slot.
ghost use Rattle.std.specs.Prelude.{◌≡◌, true};
ghost use Rattle.definitions.specs.Bits.{feature_of};
ghost use Rattle.definitions.specs.Refusal.{bad_pixel};
ghost use Rattle.list.specs.Check.{one_slot};

use list::feature;

// Some feature is s or more. It reads on after the first one, so that the loop has no way out and works many at a time. Build's has_bad_pixel is the
// same over bytes: one over both would need a clause on widened numbers, and read no plainer than these few lines.
pub fn has_bad_feature(s: u32, features: &[u32]) -> bool
    ensures { result ≡ bad_pixel s features.now }
{
    let mut bad = false;
    for &feature in features {
        if s <= feature {
            bad = true;
        }
    }
    bad
}

// The feature of a leaf as a delivery has it, in 32 bits.
pub fn feature_of(bits: u32) -> u32
    requires { one_slot bits ≡ true }
    ensures { result ≡ feature_of bits }
{
    feature::feature_of(bits) as u32
}
