// Redo (specification S12.8): the next of the steps that were taken back, a single entry here or a group in its own file. It is decided before anything
// is written, 9 on the end result.
ghost use Rattle.std.specs.Prelude.{◌≡◌, false, length};
ghost use Rattle.definitions.specs.Log.{ends_in_mark, first_step, to_redo};
ghost use Rattle.definitions.specs.Answered.{as_edited};
ghost use Rattle.definitions.specs.Calls.Edit.{as_lent};
ghost use Rattle.definitions.specs.Calls.Redo.{Redone};
ghost use Rattle.undo.specs.RedoCall.{Redoable, LogToRedo, next_step, next_entry};

use crate::{planning, redo_group};
use definitions::answers::SheetCounts;
use definitions::refusal::Refusal;
use edit::{decision, paint, recount};
use edit_log::entry::Entry;
use edit_log::step::LogStep;
use edit_log::{entry, step as steps};
use keys::power;
use list::acceptance::taken;

// The first of the steps to redo, by its places among them.
fn next_step(log_keys: &[u32], log_values: &[u32], used: usize, in_force: usize) -> LogStep
    requires { LogToRedo log_keys.now log_values.now used in_force }
    ensures { result ≡ next_step (to_redo log_keys.now log_values.now used in_force) }
{
    steps::first_step(
        &log_keys[in_force..used],
        &log_values[in_force..used],
        used - in_force,
    )
}

// Its entry, where it is a single one and ends at a place among those to redo.
fn next_entry(
    log_keys: &[u32],
    log_values: &[u32],
    used: usize,
    in_force: usize,
    end: usize,
) -> Entry
    requires { LogToRedo log_keys.now log_values.now used in_force
        × (ends_in_mark (first_step (to_redo log_keys.now log_values.now used in_force)) ≡ false)
        × (end ≡ length (first_step (to_redo log_keys.now log_values.now used in_force))) }
    ensures { result ≡ next_entry (to_redo log_keys.now log_values.now used in_force) }
{
    entry::last_entry(&log_keys[in_force..used], &log_values[in_force..used], end)
}

// The next entry that was taken back, which is a single one and ends at a place among those to redo, is in force again.
fn redo_entry(
    m: u32,
    s: u32,
    keys: &mut [u32],
    bits: &mut [u32],
    n: usize,
    summary: &mut [u32],
    log_keys: &[u32],
    log_values: &[u32],
    used: usize,
    in_force: usize,
    end: usize,
) -> Result<SheetCounts, Refusal>
    requires { Redoable (as_lent m s keys.old bits.old n summary.old log_keys.now log_values.now used in_force)
        × (ends_in_mark (first_step (to_redo log_keys.now log_values.now used in_force)) ≡ false)
        × (end ≡ length (first_step (to_redo log_keys.now log_values.now used in_force))) }
    ensures { Redone m s keys.old bits.old n summary.old log_keys.now log_values.now used in_force
        (as_edited result) keys.new bits.new summary.new log_keys.now log_values.now }
{
    let next = next_entry(log_keys, log_values, used, in_force, end);
    let former = taken(m, keys, bits, n);
    let room = slices::smaller(keys.len(), bits.len());
    let painted = Some(power::power_of_two(next.feature));
    let found = planning::plan_within(&former, room, next.key, 1, painted)?;
    let after = paint::fill(m, keys, bits, n, next.key, next.feature, found);
    let changed = taken(m, keys, bits, after);
    recount::recount(&changed, s, summary, next.key);
    Ok(SheetCounts {
        n: after,
        used,
        in_force: in_force + end,
    })
}

// The next step that was taken back is in force again, by the way of its kind.
fn redo_step(
    m: u32,
    s: u32,
    keys: &mut [u32],
    bits: &mut [u32],
    n: usize,
    summary: &mut [u32],
    log_keys: &[u32],
    log_values: &[u32],
    used: usize,
    in_force: usize,
) -> Result<SheetCounts, Refusal>
    requires { Redoable (as_lent m s keys.old bits.old n summary.old log_keys.now log_values.now used in_force) }
    ensures { Redone m s keys.old bits.old n summary.old log_keys.now log_values.now used in_force
        (as_edited result) keys.new bits.new summary.new log_keys.now log_values.now }
{
    let next = next_step(log_keys, log_values, used, in_force);
    if next.grouped {
        return redo_group::redo_group(
            m, s, keys, bits, n, summary, log_keys, log_values, used, in_force, next.end,
        );
    }
    redo_entry(
        m, s, keys, bits, n, summary, log_keys, log_values, used, in_force, next.end,
    )
}

// The next step that was taken back is in force again: the blocks of its entries get their features, the first first, and the summary follows. The log stays.
pub fn redo(
    m: u32,
    s: u32,
    keys: &mut [u32],
    bits: &mut [u32],
    n: usize,
    summary: &mut [u32],
    log_keys: &mut [u32],
    log_values: &mut [u32],
    used: usize,
    in_force: usize,
) -> Result<SheetCounts, Refusal>
    ensures { Redone m s keys.old bits.old n summary.old log_keys.old log_values.old used in_force
        (as_edited result) keys.new bits.new summary.new log_keys.new log_values.new }
{
    decision::accept_sheet(
        m, s, keys, bits, n, summary, log_keys, log_values, used, in_force,
    )?;
    if in_force == used {
        return Err(Refusal::NoRedo);
    }
    redo_step(
        m, s, keys, bits, n, summary, log_keys, log_values, used, in_force,
    )
}
