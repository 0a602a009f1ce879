// Read bit strings: a pair of bit strings becomes its list. Refusals 1, 23, 9.
ghost use Rattle.std.specs.Prelude.{◌≡◌};
ghost use Rattle.definitions.specs.Answered.{as_counted};
ghost use Rattle.definitions.specs.Calls.ReadBitStrings.{read_strings, read_keys, read_bits};

use crate::{check, fill};
use definitions::refusal::Refusal;
use list::settings;

// Nothing is written before all is accepted.
pub fn read_bit_strings(
    m: u32,
    s: u32,
    nodes: &[u8],
    leaves: &[u8],
    keys: &mut [u32],
    bits: &mut [u32],
) -> Result<usize, Refusal>
    ensures value { as_counted result ≡ read_strings m s nodes.now leaves.now keys.old bits.old }
    ensures keys_after { keys.new ≡ read_keys m s nodes.now leaves.now keys.old bits.old }
    ensures bits_after { bits.new ≡ read_bits m s nodes.now leaves.now keys.old bits.old }
{
    if settings::are_bad(m, s) {
        return Err(Refusal::Settings);
    }
    if s != 2 {
        return Err(Refusal::BitStrings);
    }
    let Some(n) = check::count_records(m, nodes, leaves) else {
        return Err(Refusal::BitStrings);
    };
    if keys.len().min(bits.len()) < n {
        return Err(Refusal::ListRoom);
    }
    fill::fill(m, nodes, leaves, n, keys, bits);
    Ok(n)
}
