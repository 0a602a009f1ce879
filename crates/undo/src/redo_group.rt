// A group redone as one step (specification S12.8): the blocks of its entries get their features again, the first first.
ghost use Rattle.std.specs.Prelude.{◌≡◌, true, length};
ghost use Rattle.definitions.specs.Log.{ends_in_mark, step_entries, first_step, to_redo};
ghost use Rattle.definitions.specs.Answered.{as_edited};
ghost use Rattle.definitions.specs.Calls.Edit.{as_lent};
ghost use Rattle.definitions.specs.Calls.Redo.{Redone};
ghost use Rattle.undo.specs.RedoCall.{Redoable};

use crate::group;
use deeds::deed::Deed;
use deeds::doing::Doing;
use definitions::answers::SheetCounts;
use definitions::refusal::Refusal;
use edit_log::entry::Entry;

// The next group that was taken back, whose entries end at a place among the records to redo, is in force again, and the summary follows.
pub fn redo_group(
    m: u32,
    s: u32,
    keys: &mut [u32],
    bits: &mut [u32],
    n: usize,
    summary: &mut [u32],
    log_keys: &[u32],
    log_values: &[u32],
    used: usize,
    in_force: usize,
    end: usize,
) -> Result<SheetCounts, Refusal>
    requires { Redoable (as_lent m s keys.old bits.old n summary.old log_keys.now log_values.now used in_force)
        × (ends_in_mark (first_step (to_redo log_keys.now log_values.now used in_force)) ≡ true)
        × (end ≡ length (step_entries (first_step (to_redo log_keys.now log_values.now used in_force)))) }
    ensures { Redone m s keys.old bits.old n summary.old log_keys.now log_values.now used in_force
        (as_edited result) keys.new bits.new summary.new log_keys.now log_values.now }
{
    let past = end + Entry::CLOSING;
    let redo_keys = &log_keys[in_force..used];
    let redo_values = &log_values[in_force..used];
    let run = group::last_run(m, redo_keys, redo_values, past);
    let doing = Doing {
        m,
        deed: Deed::Again(run),
        log_keys: redo_keys,
        log_values: redo_values,
    };
    let after = group::apply(doing, s, keys, bits, n, summary)?;
    let now = in_force + past;
    Ok(SheetCounts {
        n: after,
        used,
        in_force: now,
    })
}
