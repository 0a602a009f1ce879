// Counting into a summary: all blocks, or those from one number to another.
ghost use Rattle.std.specs.Prelude.{◌≡◌, ℕ, ◌^◌, ◌≤◌, ◌<◌, length};
ghost use Rattle.keys.specs.Key.{slot_limit};
ghost use Rattle.definitions.specs.Area.{summary_level, summary_of, summary_length};
ghost use Rattle.list.specs.Taken.{picture_listed};
ghost use Rattle.summary.specs.Counts.{block_counts};
ghost use Rattle.summary.specs.Renew.{blocks_renewed, Renewable};

use crate::blocks;
use crate::counted_list::CountedList;
use list::accepted_list::Accepted;

// The blocks from one number on, to another that is not among them, become what `counts` gives of them; the places of all others stay.
fn write_blocks<F: Fn(usize) -> [u32; 32]>(
    list: &Accepted<'_>,
    s: u32,
    summary: &mut [u32],
    from: usize,
    until: usize,
    counts: F,
)
    requires renewable { Renewable list.now.m s from until summary.old }
    requires askable { (b : ℕ) → b < 4 ^ summary_level list.now.m → F.pre counts b }
    requires right { (b : ℕ) (row : _) → b < 4 ^ summary_level list.now.m → F.post counts b row → row ≡ block_counts list.now b }
    ensures { summary.new ≡ blocks_renewed list.now.m s (picture_listed list.now) from until summary.old }
{
    let slots = s as usize;
    for b in from..until {
        let row = counts(b);
        slices::copy(&row, 0, slots, summary, b * slots);
    }
}

// They are counted anew.
pub fn renew(list: &Accepted<'_>, s: u32, summary: &mut [u32], from: usize, until: usize)
    requires { Renewable list.now.m s from until summary.old }
    ensures { summary.new ≡ blocks_renewed list.now.m s (picture_listed list.now) from until summary.old }
{
    let counts = |b: usize|
        requires { b < 4 ^ summary_level list.now.m }
        ensures { result ≡ block_counts list.entry.now b }
    { blocks::counts_of(list, b) };
    write_blocks(list, s, summary, from, until, counts);
}

// Every place is written.
pub fn fill(list: &Accepted<'_>, s: u32, summary: &mut [u32])
    requires { (s ≤ slot_limit) × (length summary.old ≡ summary_length list.now.m s) }
    ensures { summary.new ≡ summary_of list.now.m s (picture_listed list.now) }
{
    renew(list, s, summary, 0, blocks::number_of(list.m));
}

// The same from what the pass over the list has counted.
pub fn fill_counted(counted: &CountedList<'_>, s: u32, summary: &mut [u32])
    requires { (s ≤ slot_limit) × (length summary.old ≡ summary_length counted.now.list.m s) }
    ensures { summary.new ≡ summary_of counted.now.list.m s (picture_listed counted.now.list) }
{
    let blocks = blocks::number_of(counted.list.m);
    let counts = |b: usize|
        requires { b < 4 ^ summary_level counted.now.list.m }
        ensures { result ≡ block_counts counted.entry.now.list b }
    { counted.counts_of(b) };
    write_blocks(&counted.list, s, summary, 0, blocks, counts);
}
