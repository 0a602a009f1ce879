// What painting a window logs: a group, with an entry for each of the window's largest blocks. All contents are read off the list as it was.
ghost use Rattle.std.specs.Prelude.{◌+◌, ◌^◌, ◌≤◌, length};
ghost use Rattle.definitions.specs.Read.{room};
ghost use Rattle.definitions.specs.Calls.Paint.{gained};
ghost use Rattle.definitions.specs.Calls.PaintWindow.{group_gained};
ghost use Rattle.list.specs.Taken.{records_listed, picture_listed};
ghost use Rattle.edit_log.specs.Entries.{Logged};
ghost use Rattle.edit.specs.PaintCall.{Relogged};
ghost use Rattle.window_paint.specs.WindowLogging.{entries_below};
ghost use Rattle.window_paint.specs.Searching.{NearIn, BlockSought, EnterableIn, FreshGroupOf};

use crate::window_blocks;
use definitions::Window;
use edit::logging;
use edit_log::entry::Entry;
use edit_log::{entry, group};
use keys::block::{TreeBlock, child};
use keys::{block, power};
use list::accepted_list::Accepted;
use walk::lying::Lie;

// The place past the entries that are written, and the place where the search for the next block begins.
#[derive(Clone, Copy)]
pub struct EntriesEnd {
    pub place: usize,
    pub from: usize,
}

// Writes the entry of one block from a place on. The block is looked for from another on.
pub fn log_block(
    list: &Accepted<'_>,
    block: TreeBlock,
    feature: u32,
    at: EntriesEnd,
    log_keys: &mut [u32],
    log_values: &mut [u32],
) -> EntriesEnd
    requires block_from { BlockSought list.now block at.from }
    requires feature_bound { at.place + length (gained list.now.m (records_listed list.now) block.key feature) ≤ room log_keys.old log_values.old }
    ensures { Logged (gained list.now.m (records_listed list.now) block.key feature) at.place
        log_keys.old log_values.old log_keys.new log_values.new result.place
        × NearIn list.now result.from (block.key + 5 ^ block.height) }
{
    let step = power::power_of_five(block.height);
    let standing = list.stand_from(at.from, block.key, step);
    let new = Entry {
        key: block.key,
        start: at.place,
        count: logging::content_count(standing),
        feature,
    };
    let end = logging::log_content(list, standing, new, log_keys, log_values);
    EntriesEnd {
        place: end,
        from: window_blocks::place_found(standing),
    }
}

// Writes the entries of the largest blocks at or below a block, one behind the other, from a place on. They come in key order, so each is looked for
// from where the last one was found.
pub fn log_blocks(
    list: &Accepted<'_>,
    window: Window,
    feature: u32,
    block: TreeBlock,
    at: EntriesEnd,
    log_keys: &mut [u32],
    log_values: &mut [u32],
) -> EntriesEnd
    requires { EnterableIn list.now window feature block at.place log_keys.old log_values.old × NearIn list.now at.from block.key }
    ensures { Logged (entries_below list.now.m (picture_listed list.now) window feature block) at.place
        log_keys.old log_values.old log_keys.new log_values.new result.place
        × NearIn list.now result.from (block.key + 5 ^ block.height) }
{
    match window_blocks::lies(window, block) {
        Lie::Apart => at,
        Lie::Within => log_block(list, block, feature, at, log_keys, log_values),
        Lie::Cut => {
            let one = child(block, 1);
            let nw = log_blocks(list, window, feature, one, at, log_keys, log_values);
            let two = child(block, 2);
            let ne = log_blocks(list, window, feature, two, nw, log_keys, log_values);
            let three = child(block, 3);
            let sw = log_blocks(list, window, feature, three, ne, log_keys, log_values);
            let four = child(block, 4);
            log_blocks(list, window, feature, four, sw, log_keys, log_values)
        }
    }
}

// Writes the group over what could be redone: what was used past it becomes zero. Gives the number of records used then.
pub fn log_window(
    list: &Accepted<'_>,
    window: Window,
    feature: u32,
    number: u32,
    log_keys: &mut [u32],
    log_values: &mut [u32],
    used: usize,
    in_force: usize,
) -> usize
    requires { FreshGroupOf list.now window feature number in_force used log_keys.old log_values.old }
    ensures { Relogged (group_gained list.now.m (records_listed list.now) window feature) in_force used
        log_keys.old log_values.old log_keys.new log_values.new result }
{
    let start = EntriesEnd {
        place: in_force,
        from: 0,
    };
    let root = block::root(list.m);
    let written = log_blocks(list, window, feature, root, start, log_keys, log_values);
    let end = group::close_group(number, written.place, log_keys, log_values);
    entry::clear_from(log_keys, log_values, end, used);
    end
}
