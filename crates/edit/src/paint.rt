// Paint (specification S10). It is decided before anything is written, 10 and 9 on the end result.
ghost use Rattle.std.specs.Prelude.{◌≡◌, ◌≤◌, ◌<◌, ◌^◌, true, length, IfOk};
ghost use Rattle.keys.specs.Key.{slot_limit, valid_key};
ghost use Rattle.definitions.specs.Read.{room, records_of};
ghost use Rattle.definitions.specs.Refused.{refusal_told};
ghost use Rattle.definitions.specs.Answered.{as_edited};
ghost use Rattle.definitions.specs.Calls.Edit.{edit_refusal};
ghost use Rattle.definitions.specs.Calls.Paint.{painted, paint, Painted};
ghost use Rattle.list.specs.Taken.{records_listed};
ghost use Rattle.replace.specs.Putting.{Replaced};
ghost use Rattle.edit.specs.PaintCall.{room_refusal, Paintable, granted_paint, paint_plan};

use crate::decision::GrantedPaint;
use crate::{decision, logging, recount};
use definitions::answers::SheetCounts;
use definitions::refusal::Refusal;
use edit_log::entry;
use edit_log::entry::Entry;
use keys::{Key, power};
use list::acceptance::taken;
use list::accepted_list::Accepted;
use replace::content::BlockContent;
use replace::plan::Plan;
use replace::{plan, putting};

// 10 and 9: the log has room for the entry, and the list for what it becomes. Where the block stands is looked for here alone: the log and the plan go by
// it.
fn decide_room(
    list: &Accepted<'_>,
    list_room: usize,
    log_room: usize,
    in_force: usize,
    key: u32,
    feature: u32,
) -> Result<GrantedPaint, Refusal>
    requires block { (valid_key list.now.m key ≡ true) × (feature < slot_limit) }
    requires log { (in_force ≤ log_room) × (log_room < 2 ^ 62) }
    ensures told { refusal_told result ≡ room_refusal list.now.m (records_listed list.now) list_room log_room in_force key feature }
    ensures granted { IfOk result (λ grant. grant ≡ granted_paint list.now.m (records_listed list.now) in_force key feature) }
{
    let standing = list.stand(key);
    let count = logging::content_count(standing);
    if log_room < in_force + entry::places(count) {
        return Err(Refusal::LogRoom);
    }
    let bits = power::power_of_two(feature);
    let plan = plan::plan_by(list, key, Some(bits), standing);
    if list_room < plan::length_after(list.keys.len(), 1, plan) {
        return Err(Refusal::ListRoom);
    }
    let new = Entry {
        key,
        start: in_force,
        count,
        feature,
    };
    Ok(GrantedPaint {
        new,
        standing,
        plan,
    })
}

// The first refusal of a paint that applies, or what it goes by.
fn decide(
    m: u32,
    s: u32,
    keys: &[u32],
    bits: &[u32],
    n: usize,
    summary: &[u32],
    log_keys: &[u32],
    log_values: &[u32],
    used: usize,
    in_force: usize,
    key: u32,
    feature: u32,
) -> Result<GrantedPaint, Refusal>
    ensures told { refusal_told result
        ≡ edit_refusal (paint m s keys.now bits.now n summary.now log_keys.now log_values.now used in_force key feature) }
    ensures granted { IfOk result (λ grant. grant ≡ granted_paint m (records_of keys.now bits.now n) in_force key feature) }
{
    let list = decision::accept_sheet(
        m, s, keys, bits, n, summary, log_keys, log_values, used, in_force,
    )?;
    let block = Key { number: key };
    if !block.is_valid(m) {
        return Err(Refusal::Key);
    }
    if s <= feature {
        return Err(Refusal::Feature);
    }
    let list_room = slices::smaller(keys.len(), bits.len());
    let log_room = slices::smaller(log_keys.len(), log_values.len());
    decide_room(&list, list_room, log_room, in_force, key, feature)
}

// The block gets the feature: a content of one record is put into it. Gives the number of records afterwards.
pub fn fill(
    m: u32,
    keys: &mut [u32],
    bits: &mut [u32],
    n: usize,
    key: u32,
    feature: u32,
    found: Plan,
) -> usize
    requires paintable { Paintable m keys.old bits.old n key feature }
    requires found_value { found ≡ paint_plan m (records_of keys.old bits.old n) key feature }
    requires feature_len_bound { length (painted m (records_of keys.old bits.old n) key feature) ≤ room keys.old bits.old }
    ensures { Replaced n (painted m (records_of keys.old bits.old n) key feature)
        keys.old bits.old keys.new bits.new result }
{
    let content_keys = [key];
    let content_bits = [power::power_of_two(feature)];
    let content = BlockContent {
        keys: &content_keys,
        bits: &content_bits,
    };
    putting::put(m, keys, bits, n, key, found, &content)
}

// Every pixel of one block gets the feature, the summary follows, and the log gains an entry with the block's former content, over those
// that could be redone.
pub fn paint(
    m: u32,
    s: u32,
    keys: &mut [u32],
    bits: &mut [u32],
    n: usize,
    summary: &mut [u32],
    log_keys: &mut [u32],
    log_values: &mut [u32],
    used: usize,
    in_force: usize,
    key: u32,
    feature: u32,
) -> Result<SheetCounts, Refusal>
    ensures { Painted m s keys.old bits.old n summary.old log_keys.old log_values.old used in_force key feature
        (as_edited result) keys.new bits.new summary.new log_keys.new log_values.new }
{
    let grant = decide(
        m, s, keys, bits, n, summary, log_keys, log_values, used, in_force, key, feature,
    )?;
    let former = taken(m, keys, bits, n);
    let logged = logging::log_paint(
        &former,
        grant.standing,
        grant.new,
        log_keys,
        log_values,
        used,
    );
    let after = fill(m, keys, bits, n, key, feature, grant.plan);
    let painted = taken(m, keys, bits, after);
    recount::recount(&painted, s, summary, key);
    Ok(SheetCounts {
        n: after,
        used: logged,
        in_force: logged,
    })
}
