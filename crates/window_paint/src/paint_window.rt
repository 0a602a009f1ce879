// Painting a window as one step (specification S10.2). It is decided before anything is written, 10 and 9 on the end result.
ghost use Rattle.std.specs.Prelude.{◌≡◌, ◌≤◌, ◌<◌, ◌^◌, length, IfOk};
ghost use Rattle.definitions.specs.Answered.{as_edited};
ghost use Rattle.definitions.specs.Refused.{refusal_told};
ghost use Rattle.definitions.specs.Window.{largest_blocks};
ghost use Rattle.definitions.specs.Calls.Edit.{edit_refusal};
ghost use Rattle.definitions.specs.Calls.PaintWindow.{paint_window, WindowPainted};
ghost use Rattle.list.specs.Taken.{records_listed};
ghost use Rattle.window_paint.specs.PaintWindowCall.{PaintingOf, window_room_refusal};

use crate::{filling, window_blocks, window_logging};
use apply_deed::recount;
use definitions::Window;
use definitions::answers::SheetCounts;
use definitions::refusal::Refusal;
use edit::decision;
use edit_log::group;
use keys::block;
use list::acceptance::taken;
use list::accepted_list::Accepted;
use walk::bounds;

// 10 and 9: the log has room for the group, and the list for what it becomes. Gives the number of entries that the group will have.
fn decide_room(
    list: &Accepted<'_>,
    list_room: usize,
    log_room: usize,
    in_force: usize,
    window: Window,
    feature: u32,
) -> Result<u32, Refusal>
    requires painting { PaintingOf list.now window feature }
    requires log { (in_force ≤ log_room) × (log_room < 2 ^ 62) }
    ensures told { refusal_told result ≡ window_room_refusal list.now.m (records_listed list.now) list_room log_room in_force window feature }
    ensures number { IfOk result (λ number. number ≡ length (largest_blocks list.now.m window)) }
{
    let needed = window_blocks::need_below(list, window, block::root(list.m), 0);
    if log_room < in_force + group::places(needed.places) {
        return Err(Refusal::LogRoom);
    }
    if !filling::has_room(list, list_room, window, feature) {
        return Err(Refusal::ListRoom);
    }
    Ok(needed.number)
}

// The first refusal that applies, or the number of entries that the group will have.
fn decide(
    m: u32,
    s: u32,
    keys: &[u32],
    bits: &[u32],
    n: usize,
    summary: &[u32],
    log_keys: &[u32],
    log_values: &[u32],
    used: usize,
    in_force: usize,
    window: Window,
    feature: u32,
) -> Result<u32, Refusal>
    ensures told { refusal_told result
        ≡ edit_refusal (paint_window m s keys.now bits.now n summary.now log_keys.now log_values.now used in_force window feature) }
    ensures number { IfOk result (λ number. number ≡ length (largest_blocks m window)) }
{
    let list = decision::accept_sheet(
        m, s, keys, bits, n, summary, log_keys, log_values, used, in_force,
    )?;
    if !bounds::is_window(m, window) {
        return Err(Refusal::Window);
    }
    if s <= feature {
        return Err(Refusal::Feature);
    }
    let list_room = slices::smaller(keys.len(), bits.len());
    let log_room = slices::smaller(log_keys.len(), log_values.len());
    decide_room(&list, list_room, log_room, in_force, window, feature)
}

// Every pixel of the window gets the feature, the summary follows, and the log gains a group, over what could be redone.
pub fn paint_window(
    m: u32,
    s: u32,
    keys: &mut [u32],
    bits: &mut [u32],
    n: usize,
    summary: &mut [u32],
    log_keys: &mut [u32],
    log_values: &mut [u32],
    used: usize,
    in_force: usize,
    window: Window,
    feature: u32,
) -> Result<SheetCounts, Refusal>
    ensures { WindowPainted m s keys.old bits.old n summary.old log_keys.old log_values.old used in_force window feature
        (as_edited result) keys.new bits.new summary.new log_keys.new log_values.new }
{
    let number = decide(
        m, s, keys, bits, n, summary, log_keys, log_values, used, in_force, window, feature,
    )?;
    let former = taken(m, keys, bits, n);
    let logged = window_logging::log_window(
        &former, window, feature, number, log_keys, log_values, used, in_force,
    );
    let after = filling::fill_window(m, keys, bits, n, window, feature);
    let painted = taken(m, keys, bits, after);
    let doing = filling::painting(m, window, feature);
    recount::recount(doing, &painted, s, summary);
    Ok(SheetCounts {
        n: after,
        used: logged,
        in_force: logged,
    })
}
