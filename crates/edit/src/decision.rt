// The refusals that paint, take back and redo test first, and what a paint goes by that is not refused.
ghost use Rattle.std.specs.Prelude.{◌≡◌, IfOk};
ghost use Rattle.definitions.specs.Calls.Edit.{as_lent};
ghost use Rattle.definitions.specs.Refused.{refusal_told};
ghost use Rattle.list.specs.Taken.{Taken};
ghost use Rattle.edit.specs.EditCallChecks.{sheet_refusal};

use definitions::Standing;
use definitions::refusal::Refusal;
use edit_log::entry::Entry;
use list::accepted_list::Accepted;
use replace::plan::Plan;

// The entry that a paint logs, where the block's former content stands, and a plan for the list.
#[derive(Clone, Copy)]
pub struct GrantedPaint {
    pub new: Entry,
    pub standing: Standing,
    pub plan: Plan,
}

// The refusals that the calls test first: 1, 4, 18, 5, or the list.
pub fn accept_sheet<'a>(
    m: u32,
    s: u32,
    keys: &'a [u32],
    bits: &'a [u32],
    n: usize,
    summary: &[u32],
    log_keys: &[u32],
    log_values: &[u32],
    used: usize,
    in_force: usize,
) -> Result<Accepted<'a>, Refusal>
    ensures told { refusal_told result ≡ sheet_refusal (as_lent m s keys.now bits.now n summary.now
        log_keys.now log_values.now used in_force) }
    ensures list { IfOk result (Taken m keys.now bits.now n) }
{
    let list = summary::accept(m, s, keys, bits, n, summary)?;
    if !edit_log::is_log(m, s, log_keys, log_values, used, in_force) {
        return Err(Refusal::Log);
    }
    Ok(list)
}
