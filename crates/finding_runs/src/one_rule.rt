// One rule of a run: whether it may come, whether a waiver is wrong, and else its findings against its waivers, which stand one after the other.
ghost use Rattle.std.specs.Prelude.{◌≡◌, ◌^◌, ◌≤◌};
ghost use Rattle.keys.specs.Key.{deepest_side};
ghost use Rattle.finding_runs.specs.Run.{progress_of, may_come, served, RulesReady, rule_step, TableReady, table_step};
ghost use Rattle.finding_runs.specs.Step.{Gatherable, widened};

use crate::state::RunState;
use crate::{state, waivers};
use definitions::refusal::Refusal;
use definitions::{Rule, Window};
use finding::Sifting;
use list::acceptance::taken;
use walk::bounds;

// The rule's id is not below the least that may come, and the rule is good.
fn may_come(rule: Rule, state: RunState) -> bool
    requires { state.m ≤ 10 }
    ensures { result ≡ may_come rule state }
{
    if u64::from(rule.id) < state.next {
        return false;
    }
    if state.s <= rule.feature {
        return false;
    }
    let window = Window {
        row: rule.row,
        column: rule.column,
        height: rule.height,
        width: rule.width,
    };
    bounds::is_window(state.m, window)
}

// As many live findings more as the rule's window has pixels: no rule has more.
fn widen(rule: Rule, at: Sifting) -> Sifting
    requires { (rule.height ≤ deepest_side) × (rule.width ≤ deepest_side) × (at.live ≤ 2 ^ 62) }
    ensures { result ≡ widened rule at }
{
    let pixels = rule.height * rule.width;
    Sifting {
        live: at.live + pixels as usize,
        ..at
    }
}

// The rule's findings that its waivers do not hide are counted and written, the others counted; or their number is only bounded.
fn gather(
    rule: Rule,
    keys: &[u32],
    bits: &[u32],
    waiver_ids: &[u32],
    waiver_keys: &[u32],
    found_ids: &mut [u32],
    found_keys: &mut [u32],
    state: RunState,
) -> RunState
    requires { Gatherable keys.now bits.now waiver_ids.now waiver_keys.now rule (progress_of state found_ids.old found_keys.old) }
    ensures { progress_of result found_ids.new found_keys.new
        ≡ served keys.now bits.now waiver_ids.now waiver_keys.now rule
        (progress_of state found_ids.old found_keys.old) }
{
    let id = rule.id;
    let next = u64::from(id) + 1;
    let passed = state.passed;
    let end = waivers::own_end(waiver_ids, passed, state.waivers, id);
    let at = Sifting {
        passed: 0,
        furthest: 0,
        live: state.live,
        hidden: state.hidden,
    };
    if state.mode == state::BOUNDING {
        return state::counted(state, next, end, widen(rule, at));
    }
    let list = taken(state.m, keys, bits, state.n);
    let sifted = finding::sift_rule(
        rule,
        &list,
        &waiver_keys[passed..end],
        state.limit,
        found_ids,
        found_keys,
        at,
    );
    state::counted(state, next, end, sifted)
}

// One rule against its own waivers.
fn own_step(
    rule: Rule,
    keys: &[u32],
    bits: &[u32],
    waiver_ids: &[u32],
    waiver_keys: &[u32],
    found_ids: &mut [u32],
    found_keys: &mut [u32],
    state: RunState,
) -> RunState
    requires { RulesReady keys.now bits.now waiver_ids.now waiver_keys.now (progress_of state found_ids.old found_keys.old) }
    ensures { progress_of result found_ids.new found_keys.new
        ≡ rule_step keys.now bits.now waiver_ids.now waiver_keys.now rule
        (progress_of state found_ids.old found_keys.old) }
{
    let id = rule.id;
    if state.refusal != 0 {
        return state;
    }
    if state.mode == state::RESTING {
        return state;
    }
    if !may_come(rule, state) {
        return state::refused(state, Refusal::Rules.into());
    }
    if waivers::waiver_is_wrong(id, waiver_ids, state) {
        return state::faulty_from(state, u64::from(id) + 1);
    }
    gather(
        rule,
        keys,
        bits,
        waiver_ids,
        waiver_keys,
        found_ids,
        found_keys,
        state,
    )
}

// The asking office's rows are a part of the table's slices.
pub fn step(
    rule: Rule,
    keys: &[u32],
    bits: &[u32],
    waiver_ids: &[u32],
    waiver_keys: &[u32],
    found_ids: &mut [u32],
    found_keys: &mut [u32],
    state: RunState,
) -> RunState
    requires { TableReady keys.now bits.now waiver_ids.now waiver_keys.now (progress_of state found_ids.old found_keys.old) }
    ensures { progress_of result found_ids.new found_keys.new
        ≡ table_step keys.now bits.now waiver_ids.now waiver_keys.now rule
        (progress_of state found_ids.old found_keys.old) }
{
    let from = state.offset;
    let end = from + state.waivers;
    own_step(
        rule,
        keys,
        bits,
        &waiver_ids[from..end],
        &waiver_keys[from..end],
        found_ids,
        found_keys,
        state,
    )
}
