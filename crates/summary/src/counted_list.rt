// An accepted list with what the pass over its records has counted on the way.
ghost use Rattle.std.specs.Prelude.{◌^◌};
ghost use Rattle.definitions.specs.Area.{summary_height};
ghost use Rattle.summary.specs.Kept.{RowsKept};

use crate::kept::KeptBlock;
use list::accepted_list::Accepted;

// Of each block of the summary whose counts are kept, place b has those of block number b.
#[derive(Clone, Copy)]
pub struct CountedList<'a> {
    pub list: Accepted<'a>,
    pub kept: &'a [Option<KeptBlock>; 16],
    pub ghost known: { RowsKept list.bits.now (4 ^ summary_height list.m) kept.now },
}
