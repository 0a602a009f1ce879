// The feature of a leaf, from its bitstring.
ghost use Rattle.std.specs.Prelude.{◌≡◌, true, ◌<◌};
ghost use Rattle.definitions.specs.Bits.{feature_of};
ghost use Rattle.list.specs.Check.{one_slot};

// The number of the one slot, of which there are 32: a place in a table of features.
pub fn feature_of(bits: u32) -> usize
    requires { one_slot bits ≡ true }
    ensures { (result ≡ feature_of bits) × (result < 32) }
{
    u32::trailing_zeros(bits) as usize
}
