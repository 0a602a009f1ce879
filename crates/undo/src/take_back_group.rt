// A group taken back as one step (specification S12.1): the contents of its entries go into their blocks, the last first.
ghost use Rattle.std.specs.Prelude.{◌≡◌, true};
ghost use Rattle.definitions.specs.Read.{records_of};
ghost use Rattle.definitions.specs.Log.{ends_in_mark};
ghost use Rattle.definitions.specs.Answered.{as_edited};
ghost use Rattle.definitions.specs.Calls.Edit.{as_lent};
ghost use Rattle.definitions.specs.Calls.TakeBack.{TakenBack};
ghost use Rattle.undo.specs.TakingBackCall.{Takeable};

use crate::group;
use deeds::deed::Deed;
use deeds::doing::Doing;
use definitions::answers::SheetCounts;
use definitions::refusal::Refusal;

// The last group in force is taken back, and the summary follows.
pub fn take_group_back(
    m: u32,
    s: u32,
    keys: &mut [u32],
    bits: &mut [u32],
    n: usize,
    summary: &mut [u32],
    log_keys: &[u32],
    log_values: &[u32],
    used: usize,
    in_force: usize,
) -> Result<SheetCounts, Refusal>
    requires { Takeable (as_lent m s keys.old bits.old n summary.old log_keys.now log_values.now used in_force)
        × (ends_in_mark (records_of log_keys.now log_values.now in_force) ≡ true) }
    ensures { TakenBack m s keys.old bits.old n summary.old log_keys.now log_values.now used in_force
        (as_edited result) keys.new bits.new summary.new log_keys.now log_values.now }
{
    let run = group::last_run(m, log_keys, log_values, in_force);
    let doing = Doing {
        m,
        deed: Deed::Back(run),
        log_keys,
        log_values,
    };
    let after = group::apply(doing, s, keys, bits, n, summary)?;
    Ok(SheetCounts {
        n: after,
        used,
        in_force: run.start,
    })
}
