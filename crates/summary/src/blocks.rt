// The blocks of a summary: how many there are and how long it is, how many pixels each block has, their keys, and their counts.
ghost use Rattle.std.specs.Prelude.{◌≡◌, ◌≤◌, ◌<◌, ◌^◌, length, eqb};
ghost use Rattle.definitions.specs.Area.{summary_level, summary_height, summary_length, block_key};
ghost use Rattle.summary.specs.Counts.{block_counts};

use crate::count;
use keys::power;
use list::accepted_list::Accepted;

// All blocks of level 2, or of level m if m is smaller.
pub fn number_of(m: u32) -> usize
    ensures { result ≡ 4 ^ summary_level m }
{
    match m {
        0 => 1,
        1 => 4,
        _ => 16,
    }
}

// The pixels of each block.
pub fn area_of(m: u32) -> u32
    requires { m ≤ 10 }
    ensures { result ≡ 4 ^ summary_height m }
{
    if m < 2 {
        return 1;
    }
    let side = power::power_of_two(m - 2);
    side * side
}

// The key of block number b, whose two digits are those of b in base 4, each one more.
pub fn key_of(m: u32, b: usize) -> u32
    requires { (m ≤ 10) × (b < 4 ^ summary_level m) }
    ensures { result ≡ block_key m b }
{
    if m == 0 {
        return 0;
    }
    let number = b as u32;
    if m == 1 {
        return number + 1;
    }
    let step = power::power_of_five(m - 2);
    (number / 4 * 5 + number % 4 + 6) * step
}

// The counts of block number b.
pub fn counts_of(list: &Accepted<'_>, b: usize) -> [u32; 32]
    requires { b < 4 ^ summary_level list.now.m }
    ensures { result ≡ block_counts list.now b }
{
    let key = key_of(list.m, b);
    let area = area_of(list.m);
    count::count_block(list, key, area)
}

// There are as many places as a summary has.
pub fn have_length(m: u32, s: u32, summary: &[u32]) -> bool
    ensures { result ≡ eqb (length summary.now) (summary_length m s) }
{
    summary.len() == number_of(m) * s as usize
}
