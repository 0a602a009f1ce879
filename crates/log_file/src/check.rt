// The check of a log in the bytes of its file (refusal 5), from the end as over two slices, since nothing lent may be written before all is accepted.
ghost use Rattle.std.specs.Prelude.{◌≡◌, true, not, ◌≤◌};
ghost use Rattle.keys.specs.Key.{slot_limit};
ghost use Rattle.definitions.specs.Log.{last_is_entry, ends_in_mark, ends_in_entries, last_is_group, last_is_step, is_sound, no_log};
ghost use Rattle.log_file.specs.Records.{places_in, keys_in_bytes, values_in_bytes, log_in};

use crate::{entry, step};
use edit_log::entry::Entry;
use file::check_file;
use keys::Key;

// The used records end in an entry: all of it is there and closed, its key is valid, and its content is a list of that block.
fn ends_in_entry(m: u32, s: u32, bytes: &[u8], used: usize) -> bool
    requires { (m ≤ 10) × (s ≤ slot_limit) × (used ≤ places_in bytes.now) }
    ensures { result ≡ last_is_entry m s (log_in bytes.now used) }
{
    if !entry::is_closed(s, bytes, used) {
        return false;
    }
    let last = entry::last_entry(bytes, used);
    let block = Key { number: last.key };
    let content = &bytes[8 * last.start..];
    block.is_valid(m) && check_file::holds_block(content, 4, last.count, m, s, last.key)
}

// The used records end in so many entries, one after the other.
fn ends_in_entries(m: u32, s: u32, bytes: &[u8], used: usize, count: usize) -> bool
    requires { (m ≤ 10) × (s ≤ slot_limit) × (used ≤ places_in bytes.now) }
    ensures { result ≡ ends_in_entries count m s (log_in bytes.now used) }
{
    let mut end = used;
    for _passed in 0..count {
        if !ends_in_entry(m, s, bytes, end) {
            return false;
        }
        end = entry::last_entry(bytes, end).start;
    }
    true
}

// The used records, whose last has the mark, end in a group: its other closing record has the key 0 too and a number, and so many entries stand before.
fn ends_in_group(m: u32, s: u32, bytes: &[u8], used: usize) -> bool
    requires { (m ≤ 10) × (s ≤ slot_limit) × (used ≤ places_in bytes.now) × (ends_in_mark (log_in bytes.now used) ≡ true) }
    ensures { result ≡ last_is_group m s (log_in bytes.now used) }
{
    if used < Entry::CLOSING {
        return false;
    }
    let count = entry::last_count(bytes, used);
    let before = used - Entry::CLOSING;
    entry::key_at(bytes, before) == Key::ROOT
        && count != 0
        && ends_in_entries(m, s, bytes, before, count)
}

// The used records end in a step, which is a group where the last has the mark.
fn ends_in_step(m: u32, s: u32, bytes: &[u8], used: usize) -> bool
    requires { (m ≤ 10) × (s ≤ slot_limit) × (used ≤ places_in bytes.now) }
    ensures { result ≡ last_is_step m s (log_in bytes.now used) }
{
    if step::ends_in_mark(bytes, used) {
        ends_in_group(m, s, bytes, used)
    } else {
        ends_in_entry(m, s, bytes, used)
    }
}

// The used records divide from the end into steps.
fn is_sound(m: u32, s: u32, bytes: &[u8], used: usize) -> bool
    requires { (m ≤ 10) × (s ≤ slot_limit) × (used ≤ places_in bytes.now) }
    ensures { result ≡ is_sound m s (log_in bytes.now used) }
{
    let mut end = used;
    // This loop goes from step to step, and counts nothing.
    while 0 < end {
        if !ends_in_step(m, s, bytes, end) {
            return false;
        }
        end = step::last_step(bytes, end).start;
    }
    true
}

// Those in force are the first of the used records, and both they and the others divide into steps.
pub fn is_log(m: u32, s: u32, bytes: &[u8], used: usize, in_force: usize) -> bool
    requires { (m ≤ 10) × (s ≤ slot_limit) × (used ≤ places_in bytes.now) }
    ensures { not result ≡ no_log m s (keys_in_bytes bytes.now) (values_in_bytes bytes.now) used in_force }
{
    in_force <= used
        && is_sound(m, s, bytes, in_force)
        && is_sound(m, s, &bytes[8 * in_force..], used - in_force)
}
