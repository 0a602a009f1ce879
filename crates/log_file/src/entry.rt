// An entry of a log in the bytes of its file: what crate log reads from two slices is read from the records as they lie there.
ghost use Rattle.std.specs.Prelude.{◌≡◌, ◌≤◌, ◌<◌, ◌^◌, get_or};
ghost use Rattle.definitions.specs.Log.{closing_places};
ghost use Rattle.edit_log.specs.Entries.{closing_count, is_closed, last_entry, Ended};
ghost use Rattle.log_file.specs.Records.{places_in, keys_in_bytes, values_in_bytes, log_in};

use edit_log::entry;
use edit_log::entry::Entry;
use file::layout;

// The key and the value of record i.
pub fn key_at(bytes: &[u8], i: usize) -> u32
    requires { i < places_in bytes.now }
    ensures { result ≡ get_or (keys_in_bytes bytes.now) i 0 }
{
    layout::key_at(bytes, 4, i)
}

pub fn value_at(bytes: &[u8], i: usize) -> u32
    requires { i < places_in bytes.now }
    ensures { result ≡ get_or (values_in_bytes bytes.now) i 0 }
{
    layout::bits_at(bytes, 4, i)
}

// The number of content records that the last entry claims to have.
pub fn last_count(bytes: &[u8], used: usize) -> usize
    requires { (closing_places ≤ used) × (used ≤ places_in bytes.now) }
    ensures { (result ≡ closing_count (values_in_bytes bytes.now) used) × (result < 2 ^ 32) }
{
    value_at(bytes, used - Entry::CLOSING) as usize
}

// The last entry is all among the used records, and the records that close it have one key and a feature below s.
pub fn is_closed(s: u32, bytes: &[u8], used: usize) -> bool
    requires { used ≤ places_in bytes.now }
    ensures { result ≡ is_closed s (log_in bytes.now used) }
{
    Entry::CLOSING <= used
        && entry::places(last_count(bytes, used)) <= used
        && key_at(bytes, used - Entry::CLOSING) == key_at(bytes, used - 1)
        && value_at(bytes, used - 1) < s
}

// The last entry of the used records.
pub fn last_entry(bytes: &[u8], used: usize) -> Entry
    requires { Ended (keys_in_bytes bytes.now) (values_in_bytes bytes.now) used }
    ensures { result ≡ last_entry (log_in bytes.now used) }
{
    let count = last_count(bytes, used);
    let key = key_at(bytes, used - 1);
    let feature = value_at(bytes, used - 1);
    Entry {
        key,
        start: used - entry::places(count),
        count,
        feature,
    }
}
