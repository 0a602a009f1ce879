// Window queries for C: exist, report, select. A window comes as its four numbers.
ghost use Rattle.std.specs.Prelude.{◌≡◌};
ghost use Rattle.definitions.specs.Calls.Exist.{exist as exist_answer};
ghost use Rattle.definitions.specs.Calls.Report.{report as report_answer};
ghost use Rattle.definitions.specs.Calls.Select.{select as select_counted, select_answer};
ghost use Rattle.definitions.specs.Window.{window_at};

use definitions::{Counted, Exists, Reported, Window};
use window::calls;

#[unsafe(no_mangle)]
pub extern "C" fn hlq_exist(
    m: u32,
    s: u32,
    keys: &[u32],
    bits: &[u32],
    n: usize,
    row: u32,
    column: u32,
    height: u32,
    width: u32,
    feature: u32,
) -> Exists
    ensures { result ≡ exist_answer m s keys.now bits.now n (window_at row column height width) feature }
{
    let window = Window {
        row,
        column,
        height,
        width,
    };
    calls::exist(m, s, keys, bits, n, window, feature).into()
}

#[unsafe(no_mangle)]
pub extern "C" fn hlq_report(
    m: u32,
    s: u32,
    keys: &[u32],
    bits: &[u32],
    n: usize,
    row: u32,
    column: u32,
    height: u32,
    width: u32,
) -> Reported
    ensures { result ≡ report_answer m s keys.now bits.now n (window_at row column height width) }
{
    let window = Window {
        row,
        column,
        height,
        width,
    };
    calls::report(m, s, keys, bits, n, window).into()
}

#[unsafe(no_mangle)]
pub extern "C" fn hlq_select(
    m: u32,
    s: u32,
    keys: &[u32],
    bits: &[u32],
    n: usize,
    row: u32,
    column: u32,
    height: u32,
    width: u32,
    feature: u32,
    answer: &mut [u32],
) -> Counted
    ensures value { result ≡ select_counted m s keys.now bits.now n (window_at row column height width) feature answer.old }
    ensures answer_after { answer.new
        ≡ select_answer m s keys.now bits.now n (window_at row column height width) feature answer.old }
{
    let window = Window {
        row,
        column,
        height,
        width,
    };
    calls::select(m, s, keys, bits, n, window, feature, answer).into()
}
