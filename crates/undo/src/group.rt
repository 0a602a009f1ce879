// A group of entries as one step of an edit: its entries in the log, and the whole change of the list and the summary, which is left alone where the list has no
// room for the end result.
ghost use Rattle.std.specs.Prelude.{◌≡◌, MatchResult};
ghost use Rattle.definitions.specs.Read.{records_of};
ghost use Rattle.list.specs.Own.{shown_by};
ghost use Rattle.deeds.specs.Step.{step_over};
ghost use Rattle.deeds.specs.Doing.{step_by};
ghost use Rattle.undo.specs.GroupCall.{GroupLast, GroupRun, WithSummary, StepDone, StepFull};

use apply_deed::{change, recount};
use deeds::doing::Doing;
use deeds::run;
use deeds::run::Run;
use definitions::refusal::Refusal;
use edit_log::step as steps;
use list::acceptance::taken;

// The entries of the group that the used records of a log end in.
pub fn last_run(m: u32, log_keys: &[u32], log_values: &[u32], used: usize) -> Run
    requires { GroupLast m log_keys.now log_values.now used }
    ensures { GroupRun m result log_keys.now log_values.now (records_of log_keys.now log_values.now used) }
{
    let last = steps::last_step(log_keys, log_values, used);
    run::run_of(m, log_keys, log_values, last.start, last.end)
}

// The list becomes that of the deed over its picture, and the summary's blocks that the deed meets are counted anew. Gives the number of records.
pub fn apply(
    doing: Doing,
    s: u32,
    keys: &mut [u32],
    bits: &mut [u32],
    n: usize,
    summary: &mut [u32],
) -> Result<usize, Refusal>
    requires { WithSummary doing.m s keys.old bits.old n summary.old }
    ensures { MatchResult result
        (StepDone (step_over (step_by doing.entry) (shown_by doing.entry.m keys.old bits.old n)) doing.entry.m s n keys.old bits.old keys.new bits.new summary.new)
        (StepFull (step_over (step_by doing.entry) (shown_by doing.entry.m keys.old bits.old n)) doing.entry.m
        keys.old bits.old summary.old keys.new bits.new summary.new) }
{
    let former = taken(doing.m, keys, bits, n);
    let room = slices::smaller(keys.len(), bits.len());
    if !change::has_room(doing, &former, room) {
        return Err(Refusal::ListRoom);
    }
    let after = change::change(doing, keys, bits, n);
    let changed = taken(doing.m, keys, bits, after);
    recount::recount(doing, &changed, s, summary);
    Ok(after)
}
