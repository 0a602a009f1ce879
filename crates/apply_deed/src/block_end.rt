// Where the records of a block end among those of a list that come from its own on: a search for the first key past the block's.
ghost use Rattle.std.specs.Prelude.{◌≡◌, ◌+◌, ◌-◌, take, drop};
ghost use Rattle.list.specs.Among.{keys_below};
ghost use Rattle.apply_deed.specs.Passes.{EndAsked};

use list::search;

// The place after the records, from a place on, whose keys are below a number. The search begins at the first, so it costs the logarithm of their number.
pub fn block_end(keys: &[u32], at: usize, n: usize, past: u32) -> usize
    requires { EndAsked keys.now at n past }
    ensures { result ≡ at + keys_below past (take (n - at) (drop at keys.now)) }
{
    at + search::place_from(&keys[at..n], 0, past - 1) + 1
}
