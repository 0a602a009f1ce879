// What exist and report pass without asking where it ends.
ghost use Rattle.std.specs.Prelude.{◌≡◌, ◌||◌, ltb};
ghost use Rattle.list.specs.Check.{one_slot};

use list::check;

// A leaf is one record, and a block of up to 32 by 32 pixels, which has at most 3125 keys, has at most 1365: a search that begins at its own record passes them
// in less time than it takes to tell how many they are.
pub fn is_short(found: u32, step: u32) -> bool
    ensures { result ≡ one_slot found || ltb step 3126 }
{
    check::has_one_slot(found) | (step < 3126)
}
