// All rules of a run, one after the other: `one_rule::step` has all the logic. The C interface lends the six slices one by one, and two of them are written
// by every rule, so they go on one by one.
ghost use Rattle.std.specs.Prelude.{◌≡◌};
ghost use Rattle.finding_runs.specs.Run.{progress_of, TableReady, table_run};

use crate::one_rule;
use crate::state::RunState;
use definitions::Rule;

pub fn run(
    rules: &[Rule],
    keys: &[u32],
    bits: &[u32],
    waiver_ids: &[u32],
    waiver_keys: &[u32],
    found_ids: &mut [u32],
    found_keys: &mut [u32],
    state: RunState,
) -> RunState
    requires { TableReady keys.now bits.now waiver_ids.now waiver_keys.now (progress_of state found_ids.old found_keys.old) }
    ensures { progress_of result found_ids.new found_keys.new
        ≡ table_run keys.now bits.now waiver_ids.now waiver_keys.now rules.now
        (progress_of state found_ids.old found_keys.old) }
{
    let mut st = state;
    for rule in rules {
        st = one_rule::step(
            *rule,
            keys,
            bits,
            waiver_ids,
            waiver_keys,
            found_ids,
            found_keys,
            st,
        );
    }
    st
}
