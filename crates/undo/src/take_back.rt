// Take back (specification S12.1): the last step in force, a single entry here or a group in its own file. It is decided before anything is written, 9 on the
// end result.
ghost use Rattle.std.specs.Prelude.{◌≡◌, false, ◌+◌, ◌≤◌, ◌<◌, length, get_or, cond, eqb, Some, None};
ghost use Rattle.definitions.specs.Read.{room, records_of};
ghost use Rattle.definitions.specs.Log.{ends_in_mark};
ghost use Rattle.edit_log.specs.Entries.{content_part};
ghost use Rattle.replace.specs.Put.{edited};
ghost use Rattle.replace.specs.Putting.{Puttable, Replaced};
ghost use Rattle.definitions.specs.Answered.{as_edited};
ghost use Rattle.definitions.specs.Calls.Edit.{as_lent};
ghost use Rattle.definitions.specs.Calls.TakeBack.{TakenBack};
ghost use Rattle.undo.specs.TakingBackCall.{Takeable};

use crate::{planning, take_back_group};
use definitions::answers::SheetCounts;
use definitions::refusal::Refusal;
use edit::{decision, recount};
use edit_log::entry::Entry;
use edit_log::{entry, step as steps};
use list::acceptance::taken;
use replace::content::BlockContent;
use replace::plan::Plan;
use replace::putting;

// The bits of an entry's content, if it is one record.
fn one_bits(last: Entry, log_values: &[u32]) -> Option<u32>
    requires { last.start < length log_values.now }
    ensures { result ≡ cond (eqb last.count 1) (Some (get_or log_values.now last.start 0)) None }
{
    if last.count == 1 {
        Some(log_values[last.start])
    } else {
        None
    }
}

// The content of an entry goes back into its block. Gives the number of records afterwards.
fn put_back(
    m: u32,
    keys: &mut [u32],
    bits: &mut [u32],
    n: usize,
    last: Entry,
    found: Plan,
    log_keys: &[u32],
    log_values: &[u32],
) -> usize
    requires count_bound { last.start + last.count ≤ room log_keys.now log_values.now }
    requires puttable { Puttable m keys.old bits.old n last.key found (content_part last log_keys.now) (content_part last log_values.now) last.count }
    ensures { Replaced n (edited m (records_of keys.old bits.old n) last.key
        (records_of (content_part last log_keys.now) (content_part last log_values.now) last.count))
        keys.old bits.old keys.new bits.new result }
{
    let end = last.start + last.count;
    let content = BlockContent {
        keys: &log_keys[last.start..end],
        bits: &log_values[last.start..end],
    };
    putting::put(m, keys, bits, n, last.key, found, &content)
}

// The content of the last entry in force, which is a single one, goes back into its block, and the summary follows.
fn take_entry_back(
    m: u32,
    s: u32,
    keys: &mut [u32],
    bits: &mut [u32],
    n: usize,
    summary: &mut [u32],
    log_keys: &[u32],
    log_values: &[u32],
    used: usize,
    in_force: usize,
) -> Result<SheetCounts, Refusal>
    requires { Takeable (as_lent m s keys.old bits.old n summary.old log_keys.now log_values.now used in_force)
        × (ends_in_mark (records_of log_keys.now log_values.now in_force) ≡ false) }
    ensures { TakenBack m s keys.old bits.old n summary.old log_keys.now log_values.now used in_force
        (as_edited result) keys.new bits.new summary.new log_keys.now log_values.now }
{
    let last = entry::last_entry(log_keys, log_values, in_force);
    let former = taken(m, keys, bits, n);
    let room = slices::smaller(keys.len(), bits.len());
    let one = one_bits(last, log_values);
    let found = planning::plan_within(&former, room, last.key, last.count, one)?;
    let after = put_back(m, keys, bits, n, last, found, log_keys, log_values);
    let changed = taken(m, keys, bits, after);
    recount::recount(&changed, s, summary, last.key);
    Ok(SheetCounts {
        n: after,
        used,
        in_force: last.start,
    })
}

// The last step in force is taken back, by the way of its kind.
fn take_step_back(
    m: u32,
    s: u32,
    keys: &mut [u32],
    bits: &mut [u32],
    n: usize,
    summary: &mut [u32],
    log_keys: &[u32],
    log_values: &[u32],
    used: usize,
    in_force: usize,
) -> Result<SheetCounts, Refusal>
    requires { Takeable (as_lent m s keys.old bits.old n summary.old log_keys.now log_values.now used in_force) }
    ensures { TakenBack m s keys.old bits.old n summary.old log_keys.now log_values.now used in_force
        (as_edited result) keys.new bits.new summary.new log_keys.now log_values.now }
{
    if steps::ends_in_mark(log_keys, log_values, in_force) {
        return take_back_group::take_group_back(
            m, s, keys, bits, n, summary, log_keys, log_values, used, in_force,
        );
    }
    take_entry_back(
        m, s, keys, bits, n, summary, log_keys, log_values, used, in_force,
    )
}

// The last step in force is taken back: the contents of its entries go into their blocks, the last first, the summary follows, and the step is no longer in
// force. The log stays.
pub fn take_back(
    m: u32,
    s: u32,
    keys: &mut [u32],
    bits: &mut [u32],
    n: usize,
    summary: &mut [u32],
    log_keys: &mut [u32],
    log_values: &mut [u32],
    used: usize,
    in_force: usize,
) -> Result<SheetCounts, Refusal>
    ensures { TakenBack m s keys.old bits.old n summary.old log_keys.old log_values.old used in_force
        (as_edited result) keys.new bits.new summary.new log_keys.new log_values.new }
{
    decision::accept_sheet(
        m, s, keys, bits, n, summary, log_keys, log_values, used, in_force,
    )?;
    if in_force == 0 {
        return Err(Refusal::LogEmpty);
    }
    take_step_back(
        m, s, keys, bits, n, summary, log_keys, log_values, used, in_force,
    )
}
