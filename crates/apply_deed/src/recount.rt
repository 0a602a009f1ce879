// The summary after a step (specification S8.14): only the blocks that the step meets are counted anew.
ghost use Rattle.std.specs.Prelude.{◌≡◌, ◌^◌, ◌≤◌, ◌<◌, length};
ghost use Rattle.definitions.specs.Area.{summary_level, summary_height, summary_of};
ghost use Rattle.list.specs.Taken.{picture_listed};
ghost use Rattle.deeds.specs.Doing.{step_by};
ghost use Rattle.apply_deed.specs.Recount.{StepOutdated, counted_block, PassedBy};

use deeds::doing::Doing;
use deeds::meeting::Meeting;
use keys::Key;
use keys::block::TreeBlock;
use list::accepted_list::Accepted;
use summary::{blocks, renew};

// The levels below each block of the summary.
fn height_of(m: u32) -> u32
    ensures { result ≡ summary_height m }
{
    m.saturating_sub(2)
}

// Block number b of the summary.
fn counted_block(m: u32, b: usize) -> TreeBlock
    requires { (m ≤ 10) × (b < 4 ^ summary_level m) }
    ensures { result ≡ counted_block m b }
{
    let key = blocks::key_of(m, b);
    let square = Key { number: key }.block(m);
    let height = height_of(m);
    TreeBlock {
        height,
        row: square.row,
        column: square.column,
        key,
    }
}

// The step may touch a pixel of block number b.
fn meets(doing: Doing, b: usize) -> bool
    requires { (doing.m ≤ 10) × (b < 4 ^ summary_level doing.m) }
    ensures { PassedBy (step_by doing.entry) doing.entry.m b result }
{
    let block = counted_block(doing.m, b);
    let met = doing.narrowed(block).meeting(block);
    !matches!(met, Meeting::Apart)
}

// The list is already changed by the step; the summary still has the counts from before.
pub fn recount(doing: Doing, list: &Accepted<'_>, s: u32, summary: &mut [u32])
    requires same_map { doing.m ≡ list.now.m }
    requires step_outdated { StepOutdated (step_by doing) list.now.m s list.now.keys.now list.now.bits.now (length list.now.keys.now) summary.old }
    ensures { summary.new ≡ summary_of list.now.m s (picture_listed list.now) }
{
    for b in 0..blocks::number_of(list.m) {
        if meets(doing, b) {
            renew::renew(list, s, summary, b, b + 1);
        }
    }
}
