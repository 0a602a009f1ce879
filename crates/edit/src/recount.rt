// The summary after an edit (specification S8.14): only the blocks that the edited block touches are counted anew, the one that it lies in, or all that
// lie in it.
ghost use Rattle.std.specs.Prelude.{◌≡◌, ◌&&◌, ◌+◌, ◌^◌, ◌≤◌, ◌<◌, ltb};
ghost use Rattle.definitions.specs.Area.{summary_level, summary_height, summary_of, block_key};
ghost use Rattle.list.specs.Taken.{picture_listed};
ghost use Rattle.edit.specs.Recount.{Outdated};

use keys::zeros;
use list::accepted_list::Accepted;
use summary::{blocks, renew};

// Block number b of the summary and the block whose keys lie from `key` to before `end` have keys in common.
fn touches(m: u32, b: usize, key: u32, end: u32) -> bool
    requires { (m ≤ 10) × (b < 4 ^ summary_level m) }
    ensures { result ≡ (ltb (block_key m b) end && ltb key (block_key m b + 5 ^ summary_height m)) }
{
    let other = blocks::key_of(m, b);
    other < end && key < other + zeros::keys_in(m, other)
}

// The list is already changed, in one block alone; the summary still has the counts from before.
pub fn recount(list: &Accepted<'_>, s: u32, summary: &mut [u32], key: u32)
    requires { Outdated list.now s summary.old key }
    ensures { summary.new ≡ summary_of list.now.m s (picture_listed list.now) }
{
    let end = key + zeros::keys_in(list.m, key);
    let blocks = blocks::number_of(list.m);
    for b in 0..blocks {
        if touches(list.m, b, key, end) {
            renew::renew(list, s, summary, b, b + 1);
        }
    }
}
