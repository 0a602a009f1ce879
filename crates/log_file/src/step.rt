// A step of a log in the bytes of its file: a single entry, or a group of entries with the two records behind it that close it.
ghost use Rattle.std.specs.Prelude.{◌≡◌, ◌≤◌, length};
ghost use Rattle.definitions.specs.Log.{ends_in_mark, before_entries};
ghost use Rattle.edit_log.specs.Steps.{last_step, EntriesLast, Stepped};
ghost use Rattle.log_file.specs.Records.{places_in, keys_in_bytes, values_in_bytes, log_in};

use crate::entry;
use edit_log::entry::Entry;
use edit_log::group;
use edit_log::step::LogStep;
use keys::Key;

// The last record closes a group: its key is 0, and its number is the mark, which is no feature.
pub fn ends_in_mark(bytes: &[u8], used: usize) -> bool
    requires { used ≤ places_in bytes.now }
    ensures { result ≡ ends_in_mark (log_in bytes.now used) }
{
    used != 0
        && entry::key_at(bytes, used - 1) == Key::ROOT
        && entry::value_at(bytes, used - 1) == group::MARK
}

// The place where the last entries start, so many as count says.
fn entries_start(bytes: &[u8], used: usize, count: usize) -> usize
    requires { EntriesLast count (keys_in_bytes bytes.now) (values_in_bytes bytes.now) used }
    ensures { result ≡ length (before_entries count (log_in bytes.now used)) }
{
    let mut start = used;
    for _passed in 0..count {
        start = entry::last_entry(bytes, start).start;
    }
    start
}

// The last step of the used records.
pub fn last_step(bytes: &[u8], used: usize) -> LogStep
    requires { Stepped (keys_in_bytes bytes.now) (values_in_bytes bytes.now) used }
    ensures { result ≡ last_step (log_in bytes.now used) }
{
    if !ends_in_mark(bytes, used) {
        return LogStep {
            start: entry::last_entry(bytes, used).start,
            end: used,
            grouped: false,
        };
    }
    let end = used - Entry::CLOSING;
    let count = entry::last_count(bytes, used);
    LogStep {
        start: entries_start(bytes, end, count),
        end,
        grouped: true,
    }
}
