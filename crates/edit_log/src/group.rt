// A group of a log: entries, and behind them the two records that close it. What closes a group is known here alone.
ghost use Rattle.std.specs.Prelude.{◌≡◌, ◌+◌, ◌≤◌, ◌<◌, ◌^◌};
ghost use Rattle.definitions.specs.Read.{room};
ghost use Rattle.definitions.specs.Log.{closing_places};
ghost use Rattle.edit_log.specs.Entries.{Logged};
ghost use Rattle.edit_log.specs.Groups.{group_closing};

use crate::entry::Entry;
use keys::Key;

// The number in the last record of a group, where an entry has its feature. It is no feature, so it tells groups from entries.
pub const MARK: u32 = 255;

// How many places a group takes whose entries take so many.
pub fn places(entries: usize) -> usize
    requires { entries < 2 ^ 63 }
    ensures { result ≡ entries + closing_places }
{
    entries + Entry::CLOSING
}

// Closes a group of so many entries, which end before a place. Gives the place past it.
pub fn close_group(number: u32, place: usize, log_keys: &mut [u32], log_values: &mut [u32]) -> usize
    requires { place + closing_places ≤ room log_keys.old log_values.old }
    ensures { Logged (group_closing number) place
        log_keys.old log_values.old log_keys.new log_values.new result }
{
    log_keys[place] = Key::ROOT;
    log_values[place] = number;
    log_keys[place + 1] = Key::ROOT;
    log_values[place + 1] = MARK;
    place + Entry::CLOSING
}
