// Bit strings for C (specification S18): a list of two features as a pair of bit strings, written and read.
ghost use Rattle.std.specs.Prelude.{◌≡◌};
ghost use Rattle.definitions.specs.Calls.WriteBitStrings.{write_strings, written_nodes, written_leaves};
ghost use Rattle.definitions.specs.Calls.ReadBitStrings.{read_strings, read_keys, read_bits};

use bit_strings::{read as reading, write as writing};
use definitions::{Counted, Strings};

#[unsafe(no_mangle)]
pub extern "C" fn hlq_write_bit_strings(
    m: u32,
    s: u32,
    keys: &[u32],
    bits: &[u32],
    n: usize,
    node_bits: &mut [u8],
    leaf_bits: &mut [u8],
) -> Strings
    ensures value { result ≡ write_strings m s keys.now bits.now n node_bits.old leaf_bits.old }
    ensures node_bits_after { node_bits.new ≡ written_nodes m s keys.now bits.now n node_bits.old leaf_bits.old }
    ensures leaf_bits_after { leaf_bits.new ≡ written_leaves m s keys.now bits.now n node_bits.old leaf_bits.old }
{
    writing::write_bit_strings(m, s, keys, bits, n, node_bits, leaf_bits)
}

#[unsafe(no_mangle)]
pub extern "C" fn hlq_read_bit_strings(
    m: u32,
    s: u32,
    node_bits: &[u8],
    leaf_bits: &[u8],
    keys: &mut [u32],
    bits: &mut [u32],
) -> Counted
    ensures value { result ≡ read_strings m s node_bits.now leaf_bits.now keys.old bits.old }
    ensures keys_after { keys.new ≡ read_keys m s node_bits.now leaf_bits.now keys.old bits.old }
    ensures bits_after { bits.new ≡ read_bits m s node_bits.now leaf_bits.now keys.old bits.old }
{
    reading::read_bit_strings(m, s, node_bits, leaf_bits, keys, bits).into()
}
