// The log: its entries and its steps, and the check of a log (refusal 5), from the end: the last step says where it begins, so no step is looked for.
// The two slices and how many places of them are used go side by side here: that is how C lends a log, and a struct of them would hold the same three.
#![tactic(auto)]

ghost use Rattle.std.specs.Prelude.{◌≡◌, true, not, ◌≤◌, ◌<◌, length};
ghost use Rattle.keys.specs.Key.{slot_limit};
ghost use Rattle.definitions.specs.Read.{records_of};
ghost use Rattle.definitions.specs.Log.{last_is_entry, ends_in_mark, ends_in_entries, last_is_group, last_is_step, is_sound, no_log};

use crate::entry::Entry;
use keys::Key;
use list::check;

pub mod entry;
pub mod group;
pub mod step;

// The used records end in an entry: all of it is there and closed, its key is valid, and its content is a list of that block.
#[tactic(auto, using(crate::proofs::Tests::closed_places))]
fn ends_in_entry(m: u32, s: u32, keys: &[u32], values: &[u32], used: usize) -> bool
    requires { (m ≤ 10) × (s ≤ slot_limit) × (used ≤ length keys.now) × (used ≤ length values.now) }
    ensures { result ≡ last_is_entry m s (records_of keys.now values.now used) }
{
    if !entry::is_closed(s, keys, values, used) {
        return false;
    }
    let last = entry::last_entry(keys, values, used);
    let block = Key { number: last.key };
    let end = last.start + last.count;
    let content_keys = &keys[last.start..end];
    let content_values = &values[last.start..end];
    block.is_valid(m) && check::is_content(m, s, content_keys, content_values, last.count, last.key)
}

// The used records end in so many entries, one after the other.
fn ends_in_entries(m: u32, s: u32, keys: &[u32], values: &[u32], used: usize, count: usize) -> bool
    requires { (m ≤ 10) × (s ≤ slot_limit) × (used ≤ length keys.now) × (used ≤ length values.now) }
    ensures { result ≡ ends_in_entries count m s (records_of keys.now values.now used) }
{
    let mut end = used;
    for _passed in 0..count {
        if !ends_in_entry(m, s, keys, values, end) {
            return false;
        }
        end = entry::last_entry(keys, values, end).start;
    }
    true
}

// The used records, whose last has the mark, end in a group: its other closing record has the key 0 too and a number, and so many entries stand before.
fn ends_in_group(m: u32, s: u32, keys: &[u32], values: &[u32], used: usize) -> bool
    requires { (m ≤ 10) × (s ≤ slot_limit) × (used ≤ length keys.now) × (used ≤ length values.now)
        × (ends_in_mark (records_of keys.now values.now used) ≡ true) }
    ensures { result ≡ last_is_group m s (records_of keys.now values.now used) }
{
    if used < Entry::CLOSING {
        return false;
    }
    let count = entry::last_count(values, used);
    let before = used - Entry::CLOSING;
    keys[before] == Key::ROOT && count != 0 && ends_in_entries(m, s, keys, values, before, count)
}

// The used records end in a step, which is a group where the last has the mark.
fn ends_in_step(m: u32, s: u32, keys: &[u32], values: &[u32], used: usize) -> bool
    requires { (m ≤ 10) × (s ≤ slot_limit) × (used ≤ length keys.now) × (used ≤ length values.now) }
    ensures { result ≡ last_is_step m s (records_of keys.now values.now used) }
{
    if step::ends_in_mark(keys, values, used) {
        ends_in_group(m, s, keys, values, used)
    } else {
        ends_in_entry(m, s, keys, values, used)
    }
}

// The used records divide from the end into steps.
fn is_sound(m: u32, s: u32, keys: &[u32], values: &[u32], used: usize) -> bool
    requires { (m ≤ 10) × (s ≤ slot_limit) × (used ≤ length keys.now) × (used ≤ length values.now) }
    ensures { result ≡ is_sound m s (records_of keys.now values.now used) }
{
    let mut end = used;
    // This loop goes from step to step, and counts nothing.
    while 0 < end {
        if !ends_in_step(m, s, keys, values, end) {
            return false;
        }
        end = step::last_step(keys, values, end).start;
    }
    true
}

// The used records are there, those in force are the first of them, and both they and the others divide into steps.
pub fn is_log(m: u32, s: u32, keys: &[u32], values: &[u32], used: usize, in_force: usize) -> bool
    requires { (m ≤ 10) × (s ≤ slot_limit) }
    ensures { not result ≡ no_log m s keys.now values.now used in_force }
{
    used <= keys.len()
        && used <= values.len()
        && in_force <= used
        && is_sound(m, s, keys, values, in_force)
        && is_sound(
            m,
            s,
            &keys[in_force..used],
            &values[in_force..used],
            used - in_force,
        )
}
