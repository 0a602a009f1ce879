// The table of classes: its check (refusal 25), and the class that it names for two leaves.
ghost use Rattle.std.specs.Prelude.{◌≡◌, true, ◌+◌, ◌*◌, ◌^◌, ◌≤◌, ◌<◌, length};
ghost use Rattle.keys.specs.Key.{slot_limit};
ghost use Rattle.definitions.specs.Bits.{feature_of};
ghost use Rattle.definitions.specs.Combine.{class_of, bad_class_table};
ghost use Rattle.list.specs.Check.{one_slot};

use build::pixels;
use keys::power;
use list::feature;

// The bits of the class that the table names for two leaves.
pub fn class_bits(table: &[u8], s2: usize, first: u32, second: u32) -> u32
    requires first_value { (one_slot first ≡ true) × (one_slot second ≡ true) }
    requires second_in_bounds { (feature_of first * s2 + feature_of second < length table.now) × (class_of table.now s2 (feature_of first) (feature_of second) < slot_limit) }
    ensures { result ≡ 2 ^ class_of table.now s2 (feature_of first) (feature_of second) }
{
    let a = feature::feature_of(first);
    let b = feature::feature_of(second);
    let place = a * s2 + b;
    power::power_of_two(u32::from(table[place]))
}

// Refusal 25: the table has not an entry for each pair of classes, or an entry is no class of the result.
pub fn is_bad(s1: u32, s2: u32, s3: u32, table: &[u8]) -> bool
    requires { (s1 ≤ slot_limit) × (s2 ≤ slot_limit) }
    ensures { result ≡ bad_class_table s1 s2 s3 table.now }
{
    let pairs = s1 * s2;
    if table.len() != pairs as usize {
        return true;
    }
    pixels::has_bad_pixel(s3, table)
}
