// What a paint logs: the block's former content, as the block's standing tells it. Its length decides refusal 10 before anything is written.
ghost use Rattle.std.specs.Prelude.{◌≡◌, ◌≤◌, length};
ghost use Rattle.definitions.specs.Read.{room};
ghost use Rattle.definitions.specs.Calls.Paint.{gained};
ghost use Rattle.list.specs.Taken.{records_listed};
ghost use Rattle.edit_log.specs.Entries.{Logged};
ghost use Rattle.edit.specs.Content.{content_count, former_by, former_of};
ghost use Rattle.edit.specs.PaintCall.{Fresh, Relogged};

use definitions::Standing;
use edit_log::entry;
use edit_log::entry::Entry;
use list::accepted_list::Accepted;

// How many records a block's content has: as many as are listed, or one, which the list does not have, where the block lies inside a leaf.
pub fn content_count(standing: Standing) -> usize
    ensures { result ≡ content_count standing }
{
    match standing {
        Standing::Listed(_, records) => records,
        Standing::Inside(_, _, _) => 1,
    }
}

// Writes the new entry: a listed block's records, or one record with the block's own key and the bits of the leaf around it. Gives the number of
// records used then.
pub fn log_content(
    list: &Accepted<'_>,
    standing: Standing,
    new: Entry,
    log_keys: &mut [u32],
    log_values: &mut [u32],
) -> usize
    requires fresh { Fresh list.now.m list.now.keys.now list.now.bits.now (length list.now.keys.now) new log_keys.old log_values.old }
    requires former_value { former_by standing ≡ former_of list.now.m new.key (records_listed list.now) }
    ensures { Logged (gained list.now.m (records_listed list.now) new.key new.feature) new.start
        log_keys.old log_values.old log_keys.new log_values.new result }
{
    match standing {
        Standing::Listed(place, _) => {
            entry::write_entry(new, list.keys, list.bits, place, log_keys, log_values)
        }
        Standing::Inside(place, _, _) => {
            let content_bits = [list.bits[place]];
            entry::write_entry(new, &[new.key], &content_bits, 0, log_keys, log_values)
        }
    }
}

// Writes the new entry over the entries that could be redone: what was used past it becomes zero. Gives the number of records used then.
pub fn log_paint(
    list: &Accepted<'_>,
    standing: Standing,
    new: Entry,
    log_keys: &mut [u32],
    log_values: &mut [u32],
    used: usize,
) -> usize
    requires fresh { Fresh list.now.m list.now.keys.now list.now.bits.now (length list.now.keys.now) new log_keys.old log_values.old }
    requires used_there { used ≤ room log_keys.old log_values.old }
    requires former_value { former_by standing ≡ former_of list.now.m new.key (records_listed list.now) }
    ensures { Relogged (gained list.now.m (records_listed list.now) new.key new.feature) new.start used
        log_keys.old log_values.old log_keys.new log_values.new result }
{
    let end = log_content(list, standing, new, log_keys, log_values);
    entry::clear_from(log_keys, log_values, end, used);
    end
}
