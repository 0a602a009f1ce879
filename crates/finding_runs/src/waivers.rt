// The asking office's waivers beside one rule: whether one is wrong, and how many are the rule's own. They ascend by id, so a rule's stand together.
ghost use Rattle.std.specs.Prelude.{◌≡◌, ◌&&◌, ◌||◌, ◌≤◌, length, get_or, ltb};
ghost use Rattle.finding_runs.specs.Step.{OwnEnd};

use crate::state::RunState;

// A waiver is wrong: it was so before, or the first that is not passed has an id that no rule has.
pub fn waiver_is_wrong(id: u32, waiver_ids: &[u32], state: RunState) -> bool
    requires { state.waivers ≤ length waiver_ids.now }
    ensures { result ≡ state.faulty || ltb state.passed state.waivers && ltb (get_or waiver_ids.now state.passed 0) id }
{
    state.faulty || state.passed < state.waivers && waiver_ids[state.passed] < id
}

// The first place from a place on whose waiver has a larger id.
pub fn own_end(waiver_ids: &[u32], from: usize, count: usize, id: u32) -> usize
    requires { (from ≤ count) × (count ≤ length waiver_ids.now) }
    ensures { OwnEnd waiver_ids.now from count id result }
{
    for place in from..count {
        if id < waiver_ids[place] {
            return place;
        }
    }
    count
}
