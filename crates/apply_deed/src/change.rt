// The whole change of a list by a step: whether there is room for what it becomes, and the passes.
ghost use Rattle.std.specs.Prelude.{◌≡◌, length, leb};
ghost use Rattle.keys.specs.Child.{root_of};
ghost use Rattle.deeds.specs.Doing.{step_by};
ghost use Rattle.apply_deed.specs.Passes.{GrowAsked};
ghost use Rattle.apply_deed.specs.Change.{list_stepped, Changeable, Changed, AllGrown, GivenUp, zeroed};

use crate::slide::Places;
use crate::{grow, shrink, tally};
use deeds::doing::Doing;
use keys::block::root;
use keys::power;
use list::accepted_list::Accepted;

// How many records the list has after the step.
fn length_after(doing: Doing, list: &Accepted<'_>) -> usize
    requires { doing.m ≡ list.now.m }
    ensures { result ≡ length (list_stepped (step_by doing.entry) list.now) }
{
    let root = root(list.m);
    tally::tally_records(doing, root, 0, list.keys, list.bits)
        .tally
        .count
}

// The list after the step fits into so many places. It is counted only where the longest list of such a map would not fit.
pub fn has_room(doing: Doing, list: &Accepted<'_>, room: usize) -> bool
    requires { doing.m ≡ list.now.m }
    ensures { result ≡ leb (length (list_stepped (step_by doing.entry) list.now)) room }
{
    let side = power::power_of_two(list.m) as usize;
    let pixels = side * side;
    let most = (4 * pixels - 1) / 3;
    if most <= room {
        return true;
    }
    let after = length_after(doing, list);
    after <= room
}

// The places that a shorter list gives up become zero.
fn give_up(keys: &mut [u32], bits: &mut [u32], n: usize, after: usize)
    requires { GivenUp n after keys.old bits.old }
    ensures keys_after { keys.new ≡ zeroed n after keys.old }
    ensures bits_after { bits.new ≡ zeroed n after bits.old }
{
    if after < n {
        slices::clear(keys, after, n);
        slices::clear(bits, after, n);
    }
}

// All leaves grow to what the step makes of them. Where the list is as long as it becomes there is none that has to.
fn grow_all(doing: Doing, at: Places, keys: &mut [u32], bits: &mut [u32])
    requires { GrowAsked (step_by doing) doing.m (root_of doing.m) keys.old bits.old at.read at.write }
    ensures { AllGrown (step_by doing.entry) doing.entry.m at.read at.write keys.old bits.old keys.new bits.new }
{
    if at.read == at.write {
        return;
    }
    grow::grow(doing, root(doing.m), at, keys, bits);
}

// The list becomes that of the step over its picture. Gives its number of records, which shrinking tells. The slices are the lent ones, which go on behind the
// list's n records, since the list may grow into them.
pub fn change(doing: Doing, keys: &mut [u32], bits: &mut [u32], n: usize) -> usize
    requires { Changeable (step_by doing) doing.m keys.old bits.old n }
    ensures { Changed (step_by doing.entry) doing.entry.m n keys.old bits.old keys.new bits.new result }
{
    let start = Places { read: 0, write: 0 };
    let shrunk = shrink::shrink(doing, root(doing.m), start, n, keys, bits);
    let after = shrunk.tally.count;
    let left = Places {
        read: shrunk.at.write,
        write: after,
    };
    grow_all(doing, left, keys, bits);
    give_up(keys, bits, n, after);
    after
}
