// A step of a log: a single entry, or a group of entries with the two records behind it that close it. What closes a group, and where, is known here and in
// the check alone.
ghost use Rattle.std.specs.Prelude.{◌≡◌, ◌≤◌, length};
ghost use Rattle.definitions.specs.Read.{records_of};
ghost use Rattle.definitions.specs.Log.{ends_in_mark, before_entries, first_step};
ghost use Rattle.edit_log.specs.Steps.{last_step, EntriesLast, Stepped, Divided};

use crate::entry::Entry;
use crate::{entry, group};
use keys::Key;

// The places in the log where the step's entries start and end, and whether it is a group. A flag says that and no enum: both kinds have both places.
#[derive(Clone, Copy)]
pub struct LogStep {
    pub start: usize,
    pub end: usize,
    pub grouped: bool,
}

// The last record closes a group: its key is 0, and its number is the mark, which is no feature.
pub fn ends_in_mark(keys: &[u32], values: &[u32], used: usize) -> bool
    requires { (used ≤ length keys.now) × (used ≤ length values.now) }
    ensures { result ≡ ends_in_mark (records_of keys.now values.now used) }
{
    used != 0 && keys[used - 1] == Key::ROOT && values[used - 1] == group::MARK
}

// The place where the last entries start, so many as count says.
fn entries_start(keys: &[u32], values: &[u32], used: usize, count: usize) -> usize
    requires { EntriesLast count keys.now values.now used }
    ensures { result ≡ length (before_entries count (records_of keys.now values.now used)) }
{
    let mut start = used;
    for _passed in 0..count {
        start = entry::last_entry(keys, values, start).start;
    }
    start
}

// The last step of the used records.
pub fn last_step(keys: &[u32], values: &[u32], used: usize) -> LogStep
    requires { Stepped keys.now values.now used }
    ensures { result ≡ last_step (records_of keys.now values.now used) }
{
    if !ends_in_mark(keys, values, used) {
        return LogStep {
            start: entry::last_entry(keys, values, used).start,
            end: used,
            grouped: false,
        };
    }
    let end = used - Entry::CLOSING;
    let count = entry::last_count(values, used);
    LogStep {
        start: entries_start(keys, values, end, count),
        end,
        grouped: true,
    }
}

// The first step of the used records. It is found from the end: one step after the other, until none stands before.
pub fn first_step(keys: &[u32], values: &[u32], used: usize) -> LogStep
    requires { Divided keys.now values.now used }
    ensures { result ≡ last_step (first_step (records_of keys.now values.now used)) }
{
    let mut end = used;
    let mut start = last_step(keys, values, used).start;
    // This loop goes from step to step, and counts nothing.
    while 0 < start {
        end = start;
        start = last_step(keys, values, end).start;
    }
    last_step(keys, values, end)
}
