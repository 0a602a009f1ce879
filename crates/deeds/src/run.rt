// A run of a log: the entries between two of its places. They are read from the end, since an entry's last records say where it begins; so the loops step from
// entry to entry, and count no index.
ghost use Rattle.std.specs.Prelude.{◌≡◌, true, ◌+◌, ◌^◌, ◌≤◌};
ghost use Rattle.keys.specs.Child.{KeysEnd};
ghost use Rattle.deeds.specs.Runs.{EntriesIn, Between, descends, last_first};
ghost use Rattle.deeds.specs.Deed.{ShortRun};

use edit_log::entry;
use keys::block::TreeBlock;
use keys::{block, power, zeros};

// Where the entries start and end. Of ordered ones each block ends at or before the next one's key, so none has a pixel of another; a search among them
// may stop early.
#[derive(Clone, Copy)]
pub struct Run {
    pub start: usize,
    pub end: usize,
    pub ordered: bool,
}

// Each block ends at or before the next one's key.
fn is_ordered(m: u32, log_keys: &[u32], log_values: &[u32], start: usize, end: usize) -> bool
    requires { (m ≤ 10) × Between m start end log_keys.now log_values.now }
    ensures { result ≡ descends m (5 ^ m) (last_first end log_keys.now log_values.now start end) }
{
    let mut limit = power::power_of_five(m);
    let mut left = end;
    while start < left {
        let last = entry::last_entry(log_keys, log_values, left);
        let key = last.key;
        let step = zeros::keys_in(m, key);
        if limit < key + step {
            return false;
        }
        limit = key;
        left = last.start;
    }
    true
}

// The entries between two places as a run.
pub fn run_of(m: u32, log_keys: &[u32], log_values: &[u32], start: usize, end: usize) -> Run
    requires { (m ≤ 10) × Between m start end log_keys.now log_values.now }
    ensures { (result.start ≡ start) × (result.end ≡ end) × EntriesIn m result log_keys.now log_values.now }
{
    let ordered = is_ordered(m, log_keys, log_values, start, end);
    Run {
        start,
        end,
        ordered,
    }
}

// The run without its last entries, as long as their keys are past a block's: they have no pixel of it, nor of what lies before it.
pub fn up_to(m: u32, log_keys: &[u32], log_values: &[u32], run: Run, block: TreeBlock) -> Run
    requires { EntriesIn m run log_keys.now log_values.now × KeysEnd block }
    ensures { ShortRun m (block.key + 5 ^ block.height) run result log_keys.now log_values.now }
{
    let past = block::end(block);
    let start = run.start;
    let ordered = run.ordered;
    let mut end = run.end;
    while start < end {
        let last = entry::last_entry(log_keys, log_values, end);
        if last.key < past {
            break;
        }
        end = last.start;
    }
    Run {
        start,
        end,
        ordered,
    }
}
