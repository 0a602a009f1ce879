// Window queries for C with a window that may reach over the edge (specification S7): exist, report, select, area. Row and column may be negative.
ghost use Rattle.std.specs.Prelude.{◌≡◌};
ghost use Rattle.definitions.specs.Calls.Clipped.{exist_clipped, report_clipped, select_clipped, select_answer_clipped, area_clipped};

use clipped::calls;
use definitions::{Counted, Exists, Measured, Reported};

#[unsafe(no_mangle)]
pub extern "C" fn hlq_exist_clipped(
    m: u32,
    s: u32,
    keys: &[u32],
    bits: &[u32],
    n: usize,
    row: i32,
    column: i32,
    height: u32,
    width: u32,
    feature: u32,
) -> Exists
    ensures { result ≡ exist_clipped m s keys.now bits.now n row column height width feature }
{
    calls::exist_clipped(m, s, keys, bits, n, row, column, height, width, feature).into()
}

#[unsafe(no_mangle)]
pub extern "C" fn hlq_report_clipped(
    m: u32,
    s: u32,
    keys: &[u32],
    bits: &[u32],
    n: usize,
    row: i32,
    column: i32,
    height: u32,
    width: u32,
) -> Reported
    ensures { result ≡ report_clipped m s keys.now bits.now n row column height width }
{
    calls::report_clipped(m, s, keys, bits, n, row, column, height, width).into()
}

#[unsafe(no_mangle)]
pub extern "C" fn hlq_select_clipped(
    m: u32,
    s: u32,
    keys: &[u32],
    bits: &[u32],
    n: usize,
    row: i32,
    column: i32,
    height: u32,
    width: u32,
    feature: u32,
    answer: &mut [u32],
) -> Counted
    ensures value { result ≡ select_clipped m s keys.now bits.now n row column height width feature answer.old }
    ensures answer_after { answer.new
        ≡ select_answer_clipped m s keys.now bits.now n row column height width feature answer.old }
{
    calls::select_clipped(
        m, s, keys, bits, n, row, column, height, width, feature, answer,
    )
    .into()
}

#[unsafe(no_mangle)]
pub extern "C" fn hlq_area_clipped(
    m: u32,
    s: u32,
    keys: &[u32],
    bits: &[u32],
    n: usize,
    summary: &[u32],
    row: i32,
    column: i32,
    height: u32,
    width: u32,
    feature: u32,
) -> Measured
    ensures { result ≡ area_clipped m s keys.now bits.now n summary.now row column height width feature }
{
    calls::area_clipped(
        m, s, keys, bits, n, summary, row, column, height, width, feature,
    )
    .into()
}
