// The calls that ask a window (specification S6): exist, report and select. They refuse by their tables, and require nothing.
// Their parameters are those of the C functions, one by one.
ghost use Rattle.std.specs.Prelude.{◌≡◌, IfOk};
ghost use Rattle.definitions.specs.Refused.{refusal_told};
ghost use Rattle.definitions.specs.Answered.{as_exists, as_reported, as_counted};
ghost use Rattle.definitions.specs.Calls.Exist.{exist_refusal, exist as exist_answer};
ghost use Rattle.definitions.specs.Calls.Report.{report_refusal, report as report_answer};
ghost use Rattle.definitions.specs.Calls.Select.{select as select_counted, select_answer};
ghost use Rattle.list.specs.Taken.{Taken};

use crate::exist::exist_in;
use crate::report::report_in;
use crate::select::gather;
use definitions::Window;
use definitions::refusal::Refusal;
use list::accept;
use list::accepted_list::Accepted;
use walk::bounds::{is_window, pixels_of};

// The list that is asked, where the window lies in the raster. Refusals 1, 4 and 6.
fn accept_window<'a>(
    m: u32,
    s: u32,
    keys: &'a [u32],
    bits: &'a [u32],
    n: usize,
    window: Window,
) -> Result<Accepted<'a>, Refusal>
    ensures told { refusal_told result ≡ report_refusal m s keys.now bits.now n window }
    ensures list { IfOk result (Taken m keys.now bits.now n) }
{
    let list = accept(m, s, keys, bits, n)?;
    if !is_window(m, window) {
        return Err(Refusal::Window);
    }
    Ok(list)
}

// The list that is asked for a feature. Refusals 1, 4, 6 and 7.
fn accept_feature<'a>(
    m: u32,
    s: u32,
    keys: &'a [u32],
    bits: &'a [u32],
    n: usize,
    window: Window,
    feature: u32,
) -> Result<Accepted<'a>, Refusal>
    ensures told { refusal_told result ≡ exist_refusal m s keys.now bits.now n window feature }
    ensures list { IfOk result (Taken m keys.now bits.now n) }
{
    let list = accept_window(m, s, keys, bits, n, window)?;
    if s <= feature {
        return Err(Refusal::Feature);
    }
    Ok(list)
}

// Does the feature occur in the window?
pub fn exist(
    m: u32,
    s: u32,
    keys: &[u32],
    bits: &[u32],
    n: usize,
    window: Window,
    feature: u32,
) -> Result<bool, Refusal>
    ensures { as_exists result ≡ exist_answer m s keys.now bits.now n window feature }
{
    let list = accept_feature(m, s, keys, bits, n, window, feature)?;
    Ok(exist_in(&list, window, feature))
}

// Which features occur in the window?
pub fn report(
    m: u32,
    s: u32,
    keys: &[u32],
    bits: &[u32],
    n: usize,
    window: Window,
) -> Result<u32, Refusal>
    ensures { as_reported result ≡ report_answer m s keys.now bits.now n window }
{
    let list = accept_window(m, s, keys, bits, n, window)?;
    Ok(report_in(&list, window))
}

// Where does the feature occur in the window? No answer has more keys than the window has pixels: where these fit, one walk counts and writes. Elsewhere
// the keys are counted before any is written, since a call that is refused for too little room leaves the answer as it was.
pub fn select(
    m: u32,
    s: u32,
    keys: &[u32],
    bits: &[u32],
    n: usize,
    window: Window,
    feature: u32,
    answer: &mut [u32],
) -> Result<usize, Refusal>
    ensures value { as_counted result ≡ select_counted m s keys.now bits.now n window feature answer.old }
    ensures answer_after { answer.new ≡ select_answer m s keys.now bits.now n window feature answer.old }
{
    let list = accept_feature(m, s, keys, bits, n, window, feature)?;
    let room = answer.len();
    if pixels_of(window) <= room {
        return Ok(gather(&list, window, feature, answer, room));
    }
    let needed = gather(&list, window, feature, answer, 0);
    if room < needed {
        return Err(Refusal::AnswerRoom(needed as u64));
    }
    Ok(gather(&list, window, feature, answer, needed))
}
