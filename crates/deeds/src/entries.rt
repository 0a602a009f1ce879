// What the entries of a run make of a block. Only keys are compared: an entry's block holds the other, lies inside it, or is apart from it. A content
// is not looked through where it is the block's own: it is told by its place. The loops step from entry to entry, as an entry's end tells its start, and count
// no index.
ghost use Rattle.std.specs.Prelude.{◌≡◌, true, ◌≤◌, ◌<◌, length};
ghost use Rattle.keys.specs.Key.{valid_key};
ghost use Rattle.keys.specs.Block.{in_interval};
ghost use Rattle.deeds.specs.Runs.{EntriesIn, Held, Asking, back_bits, whole_of, given_by, met_by, meeting_by, last_of_run, first_of_run};
ghost use Rattle.deeds.specs.Runs.{back_step, again_step};
ghost use Rattle.deeds.specs.declared.meeting.Meeting.TheVariants.{Apart};
ghost use Rattle.deeds.specs.Direction.{is_back};
ghost use Rattle.deeds.specs.Meeting.{BlockAsked, Met};

use crate::direction::Direction;
use crate::meeting::Meeting;
use crate::run::Run;
use edit_log::entry;
use edit_log::entry::Entry;
use keys::block::TreeBlock;
use keys::{power, zeros};
use list::{check, search};

// The block with the first key is the one with the second, or holds it.
fn holds(m: u32, outer: u32, inner: u32) -> bool
    requires { (m ≤ 10) × (valid_key m outer ≡ true) }
    ensures { result ≡ in_interval m outer inner }
{
    if inner < outer {
        return false;
    }
    inner - outer < zeros::keys_in(m, outer)
}

// The bits of a block in the content of an entry whose block holds it.
fn content_bits(log_keys: &[u32], log_values: &[u32], asked: Entry, key: u32) -> u32
    requires { Held asked log_keys.now log_values.now key }
    ensures { result ≡ back_bits log_keys.now log_values.now key asked }
{
    let start = asked.start;
    let place = search::place(&log_keys[start..start + asked.count], key);
    log_values[start + place]
}

// What an entry that is taken back makes of its own block: the content that it holds.
fn whole(log_values: &[u32], asked: Entry) -> Meeting
    requires { asked.start < length log_values.now }
    ensures { result ≡ whole_of log_values.now asked }
{
    let start = asked.start;
    let count = asked.count;
    if count == 1 {
        return Meeting::Leaf(log_values[start]);
    }
    Meeting::Content(start, count)
}

// What an entry that is taken back makes of a block that its own holds: by the content.
fn taken_back(log_keys: &[u32], log_values: &[u32], asked: Entry, key: u32) -> Meeting
    requires { Held asked log_keys.now log_values.now key }
    ensures { result ≡ given_by true log_keys.now log_values.now key asked }
{
    if asked.key == key {
        return whole(log_values, asked);
    }
    let bits = content_bits(log_keys, log_values, asked, key);
    if check::has_one_slot(bits) {
        Meeting::Leaf(bits)
    } else {
        Meeting::Cut
    }
}

// The same of an entry that goes either way: one that is painted again makes it a leaf of the feature.
fn given(
    direction: Direction,
    log_keys: &[u32],
    log_values: &[u32],
    asked: Entry,
    key: u32,
) -> Meeting
    requires { (asked.feature ≤ 31) × Held asked log_keys.now log_values.now key }
    ensures { result ≡ given_by (is_back direction) log_keys.now log_values.now key asked }
{
    match direction {
        Direction::Back => taken_back(log_keys, log_values, asked, key),
        Direction::Again => Meeting::Leaf(power::power_of_two(asked.feature)),
    }
}

// What one entry makes of a block of which the entries that it decides before make something.
fn met(
    log_keys: &[u32],
    log_values: &[u32],
    m: u32,
    asked: Entry,
    key: u32,
    others: Meeting,
) -> Meeting
    requires { (m ≤ 10) × (valid_key m key ≡ true) × Asking m asked log_keys.now log_values.now key }
    ensures { result ≡ met_by m key (given_by true log_keys.now log_values.now key) asked others }
{
    if holds(m, asked.key, key) {
        return taken_back(log_keys, log_values, asked, key);
    }
    if holds(m, key, asked.key) {
        return Meeting::Cut;
    }
    others
}

// What a run makes of a block where the last entry decides that is not apart from it. Where the entries are ordered, none before one that ends before
// the block has to be asked.
fn by_last(
    direction: Direction,
    run: Run,
    log_keys: &[u32],
    log_values: &[u32],
    m: u32,
    key: u32,
) -> Meeting
    requires { (m ≤ 10) × (valid_key m key ≡ true) × EntriesIn m run log_keys.now log_values.now }
    ensures { result ≡ meeting_by m Apart key (given_by (is_back direction) log_keys.now log_values.now key) (last_of_run run log_keys.now log_values.now) }
{
    let start = run.start;
    let mut end = run.end;
    while start < end {
        let last = entry::last_entry(log_keys, log_values, end);
        if holds(m, last.key, key) {
            return given(direction, log_keys, log_values, last, key);
        }
        if holds(m, key, last.key) {
            return Meeting::Cut;
        }
        if run.ordered && last.key < key {
            return Meeting::Apart;
        }
        end = last.start;
    }
    Meeting::Apart
}

// The same where the first entry decides: what the later ones make of the block is what the earlier ones leave where they are apart from it.
fn by_first(run: Run, log_keys: &[u32], log_values: &[u32], m: u32, key: u32) -> Meeting
    requires { (m ≤ 10) × (valid_key m key ≡ true) × EntriesIn m run log_keys.now log_values.now }
    ensures { result ≡ meeting_by m Apart key (given_by true log_keys.now log_values.now key) (first_of_run run log_keys.now log_values.now) }
{
    let start = run.start;
    let mut end = run.end;
    let mut answer = Meeting::Apart;
    while start < end {
        let last = entry::last_entry(log_keys, log_values, end);
        answer = met(log_keys, log_values, m, last, key, answer);
        end = last.start;
    }
    answer
}

// What a run that is taken back makes of a block. Ordered entries have no pixel of one another: any of them may decide.
pub fn meeting_back(
    run: Run,
    log_keys: &[u32],
    log_values: &[u32],
    m: u32,
    block: TreeBlock,
) -> Meeting
    requires { EntriesIn m run log_keys.now log_values.now × BlockAsked m block }
    ensures { Met (back_step m run log_keys.now log_values.now) log_keys.now log_values.now block result }
{
    if run.ordered {
        return by_last(Direction::Back, run, log_keys, log_values, m, block.key);
    }
    by_first(run, log_keys, log_values, m, block.key)
}

// The same of one that is painted again.
pub fn meeting_again(
    run: Run,
    log_keys: &[u32],
    log_values: &[u32],
    m: u32,
    block: TreeBlock,
) -> Meeting
    requires { EntriesIn m run log_keys.now log_values.now × BlockAsked m block }
    ensures { Met (again_step m run log_keys.now log_values.now) log_keys.now log_values.now block result }
{
    by_last(Direction::Again, run, log_keys, log_values, m, block.key)
}
