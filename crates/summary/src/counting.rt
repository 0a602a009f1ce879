// A list is accepted and its blocks are counted in one pass; what the pass kept of a block need not be counted again.
ghost use Rattle.std.specs.Prelude.{◌≡◌, ◌^◌, ◌<◌, take, IfOk};
ghost use Rattle.definitions.specs.Area.{summary_level, summary_height};
ghost use Rattle.definitions.specs.Refused.{refusal_told};
ghost use Rattle.list.specs.First.{first_refusal};
ghost use Rattle.list.specs.Taken.{Taken};
ghost use Rattle.summary.specs.Counts.{block_counts};
ghost use Rattle.summary.specs.Kept.{RowsKept};

use crate::counted_list::CountedList;
use crate::kept::KeptBlock;
use crate::{blocks, kept};
use definitions::refusal::Refusal;
use list::accepted_list::Accepted;
use list::{acceptance, settings};

// Refusals 1 and 4, or the list: what every call that asks a list does first.
// It is inlined, so that the list is not copied through memory on its way back: on a short list that takes long.
#[inline(always)]
pub fn accept_counting<'a>(
    m: u32,
    s: u32,
    keys: &'a [u32],
    bits: &'a [u32],
    n: usize,
    kept: &mut [Option<KeptBlock>; 16],
) -> Result<Accepted<'a>, Refusal>
    requires { RowsKept (take n bits.now) (4 ^ summary_height m) kept.old }
    ensures told { refusal_told result ≡ first_refusal m s keys.now bits.now n }
    ensures list { IfOk result (Taken m keys.now bits.now n) }
    ensures known { RowsKept (take n bits.now) (4 ^ summary_height m) kept.new }
{
    if settings::are_bad(m, s) {
        return Err(Refusal::Settings);
    }
    if !kept::check_list(m, s, keys, bits, n, kept) {
        return Err(Refusal::List);
    }
    Ok(acceptance::taken(m, keys, bits, n))
}

impl CountedList<'_> {
    // The counts of block number b: those that are kept, or else its records are counted.
    pub fn counts_of(&self, b: usize) -> [u32; 32]
        requires { b < 4 ^ summary_level self.now.list.m }
        ensures { result ≡ block_counts self.now.list b }
    {
        if let Some(block) = self.kept[b] {
            let key = blocks::key_of(self.list.m, b);
            if self.list.place(key) == block.place {
                return block.counts;
            }
        }
        blocks::counts_of(&self.list, b)
    }
}
