// The plan to put a content into a block, for a single entry that is taken back or redone: refusal 9 is decided on it.
ghost use Rattle.std.specs.Prelude.{◌≡◌, ◌+◌, ◌≤◌, ◌<◌, ◌^◌, true, length, MatchResult};
ghost use Rattle.keys.specs.Key.{valid_key};
ghost use Rattle.undo.specs.Planning.{plan_told, length_told, PlanFits, NoRoom};

use definitions::refusal::Refusal;
use list::accepted_list::Accepted;
use replace::plan;
use replace::plan::Plan;

// The plan, if the list fits into so many places afterwards. Of a content of so many records the bits are told if it is one.
pub fn plan_within(
    list: &Accepted<'_>,
    room: usize,
    key: u32,
    count: usize,
    one: Option<u32>,
) -> Result<Plan, Refusal>
    requires valid { valid_key list.now.m key ≡ true }
    requires small { ((plan_told list.now key one).old ≤ length list.now.keys.now)
        × ((plan_told list.now key one).levels ≤ 10)
        × (length list.now.keys.now + count < 2 ^ 63) }
    ensures { MatchResult result (PlanFits list.now room key count one) (NoRoom list.now room key count one) }
{
    let found = plan::plan_of(list, key, one);
    if room < plan::length_after(list.keys.len(), count, found) {
        return Err(Refusal::ListRoom);
    }
    Ok(found)
}
