// The calls that ask a window that may reach over the edge: each is the strict call on the clipped window. They refuse by the strict tables, and
// require nothing.
// Their parameters are those of the C functions, one by one.
ghost use Rattle.std.specs.Prelude.{◌≡◌};
ghost use Rattle.definitions.specs.Answered.{as_exists, as_reported, as_counted, as_measured};
ghost use Rattle.definitions.specs.Calls.Clipped.{exist_clipped, report_clipped, select_clipped, select_answer_clipped, area_clipped};

use crate::clip::clipped_window;
use definitions::refusal::Refusal;

// Does the feature occur in the window? Yes is 1.
pub fn exist_clipped(
    m: u32,
    s: u32,
    keys: &[u32],
    bits: &[u32],
    n: usize,
    row: i32,
    column: i32,
    height: u32,
    width: u32,
    feature: u32,
) -> Result<bool, Refusal>
    ensures { as_exists result ≡ exist_clipped m s keys.now bits.now n row column height width feature }
{
    let window = clipped_window(m, row, column, height, width);
    window::calls::exist(m, s, keys, bits, n, window, feature)
}

// Which features occur in the window?
pub fn report_clipped(
    m: u32,
    s: u32,
    keys: &[u32],
    bits: &[u32],
    n: usize,
    row: i32,
    column: i32,
    height: u32,
    width: u32,
) -> Result<u32, Refusal>
    ensures { as_reported result ≡ report_clipped m s keys.now bits.now n row column height width }
{
    let window = clipped_window(m, row, column, height, width);
    window::calls::report(m, s, keys, bits, n, window)
}

// Where does the feature occur in the window?
pub fn select_clipped(
    m: u32,
    s: u32,
    keys: &[u32],
    bits: &[u32],
    n: usize,
    row: i32,
    column: i32,
    height: u32,
    width: u32,
    feature: u32,
    answer: &mut [u32],
) -> Result<usize, Refusal>
    ensures value { as_counted result ≡ select_clipped m s keys.now bits.now n row column height width feature answer.old }
    ensures answer_after { answer.new
        ≡ select_answer_clipped m s keys.now bits.now n row column height width feature answer.old }
{
    let window = clipped_window(m, row, column, height, width);
    window::calls::select(m, s, keys, bits, n, window, feature, answer)
}

// How many pixels of the window have the feature?
pub fn area_clipped(
    m: u32,
    s: u32,
    keys: &[u32],
    bits: &[u32],
    n: usize,
    summary: &[u32],
    row: i32,
    column: i32,
    height: u32,
    width: u32,
    feature: u32,
) -> Result<u32, Refusal>
    ensures { as_measured result ≡ area_clipped m s keys.now bits.now n summary.now row column height width feature }
{
    let window = clipped_window(m, row, column, height, width);
    area::calls::area(m, s, keys, bits, n, summary, window, feature)
}
