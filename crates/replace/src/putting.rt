// Putting a content into a block of a list, once it is known to fit: exchange, renew, and zeroes in the places given up.
ghost use Rattle.std.specs.Prelude.{length};
ghost use Rattle.definitions.specs.Read.{records_of};
ghost use Rattle.replace.specs.Put.{edited};
ghost use Rattle.replace.specs.Putting.{Puttable, Replaced};

use crate::content::BlockContent;
use crate::plan::Plan;
use crate::{exchange, plan, renewing};

// Gives the number of records afterwards.
pub fn put(
    m: u32,
    keys: &mut [u32],
    bits: &mut [u32],
    n: usize,
    key: u32,
    plan: Plan,
    content: &BlockContent<'_>,
) -> usize
    requires { Puttable m keys.old bits.old n key plan content.now.keys.now content.now.bits.now (length content.now.keys.now) }
    ensures { Replaced n (edited m (records_of keys.old bits.old n) key
        (records_of content.now.keys.now content.now.bits.now (length content.now.keys.now)))
        keys.old bits.old keys.new bits.new result }
{
    let after = plan::length_after(n, content.keys.len(), plan);
    exchange::exchange(keys, bits, n, key, plan, content);
    let b = bits[plan.start];
    renewing::renew(m, &keys[..after], bits, key, plan.top + plan.levels, b);
    if after < n {
        slices::clear(keys, after, n);
        slices::clear(bits, after, n);
    }
    after
}
