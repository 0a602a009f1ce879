// Combining two lists, for C.
ghost use Rattle.std.specs.Prelude.{◌≡◌};
ghost use Rattle.definitions.specs.Calls.Combine.{combine as combination, combine_keys, combine_bits};

use definitions::Counted;

#[unsafe(no_mangle)]
pub extern "C" fn hlq_combine(
    m1: u32,
    s1: u32,
    keys1: &[u32],
    bits1: &[u32],
    n1: usize,
    m2: u32,
    s2: u32,
    keys2: &[u32],
    bits2: &[u32],
    n2: usize,
    s3: u32,
    table: &[u8],
    keys3: &mut [u32],
    bits3: &mut [u32],
) -> Counted
    ensures value { result ≡ combination m1 s1 keys1.now bits1.now n1 m2 s2 keys2.now bits2.now n2 s3 table.now keys3.old bits3.old }
    ensures keys3_after { keys3.new ≡ combine_keys m1 s1 keys1.now bits1.now n1 m2 s2 keys2.now bits2.now n2 s3 table.now keys3.old bits3.old }
    ensures bits3_after { bits3.new ≡ combine_bits m1 s1 keys1.now bits1.now n1 m2 s2 keys2.now bits2.now n2 s3 table.now keys3.old bits3.old }
{
    combine::combine(
        m1, s1, keys1, bits1, n1, m2, s2, keys2, bits2, n2, s3, table, keys3, bits3,
    )
    .into()
}
