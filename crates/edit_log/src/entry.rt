// An entry of a log: a block's content, and behind it the two records that close it. What closes an entry, and where, is known here alone.
ghost use Rattle.std.specs.Prelude.{◌≡◌, ◌+◌, ◌≤◌, ◌<◌, ◌^◌, length};
ghost use Rattle.definitions.specs.Read.{room, records_of};
ghost use Rattle.definitions.specs.Log.{closed, closing_places};
ghost use Rattle.edit_log.specs.Entries.{closing_count, is_closed, last_entry, Ended, records_from_place, Loggable, Logged, Cleared};

// The block's key, the place in the log where the content starts, how many records that has, and the feature that the block was painted with.
#[derive(Clone, Copy)]
pub struct Entry {
    pub key: u32,
    pub start: usize,
    pub count: usize,
    pub feature: u32,
}

impl Entry {
    // How many records close an entry, and a group too.
    pub const CLOSING: usize = 2;
}

// How many places an entry takes whose content has so many records.
pub fn places(count: usize) -> usize
    requires { count < 2 ^ 63 }
    ensures { result ≡ count + closing_places }
{
    count + Entry::CLOSING
}

// The number of content records that the last entry claims to have.
pub fn last_count(values: &[u32], used: usize) -> usize
    requires { (closing_places ≤ used) × (used ≤ length values.now) }
    ensures { (result ≡ closing_count values.now used) × (result < 2 ^ 32) }
{
    values[used - Entry::CLOSING] as usize
}

// The last entry is all among the used records, and the records that close it have one key and a feature below s.
pub fn is_closed(s: u32, keys: &[u32], values: &[u32], used: usize) -> bool
    requires { (used ≤ length keys.now) × (used ≤ length values.now) }
    ensures { result ≡ is_closed s (records_of keys.now values.now used) }
{
    Entry::CLOSING <= used
        && places(last_count(values, used)) <= used
        && keys[used - Entry::CLOSING] == keys[used - 1]
        && values[used - 1] < s
}

// The last entry of the used records.
pub fn last_entry(keys: &[u32], values: &[u32], used: usize) -> Entry
    requires { Ended keys.now values.now used }
    ensures { result ≡ last_entry (records_of keys.now values.now used) }
{
    let count = last_count(values, used);
    Entry {
        key: keys[used - 1],
        start: used - places(count),
        count,
        feature: values[used - 1],
    }
}

// Writes an entry from its start on: its content, which two slices have from a place on, and the closing records. Gives the place past it.
pub fn write_entry(
    new: Entry,
    keys: &[u32],
    bits: &[u32],
    place: usize,
    log_keys: &mut [u32],
    log_values: &mut [u32],
) -> usize
    requires { Loggable new keys.now bits.now place log_keys.old log_values.old }
    ensures { Logged (closed new.key (records_from_place keys.now bits.now place new.count) new.feature) new.start
        log_keys.old log_values.old log_keys.new log_values.new result }
{
    slices::copy(keys, place, new.count, log_keys, new.start);
    slices::copy(bits, place, new.count, log_values, new.start);
    let last = new.start + new.count;
    log_keys[last] = new.key;
    log_values[last] = new.count as u32;
    log_keys[last + 1] = new.key;
    log_values[last + 1] = new.feature;
    last + Entry::CLOSING
}

// The places from start on, up to those used, become zero; there may be none.
pub fn clear_from(log_keys: &mut [u32], log_values: &mut [u32], start: usize, used: usize)
    requires { used ≤ room log_keys.old log_values.old }
    ensures { Cleared start used
        log_keys.old log_values.old log_keys.new log_values.new }
{
    if used <= start {
        return;
    }
    slices::clear(log_keys, start, used);
    slices::clear(log_values, start, used);
}
