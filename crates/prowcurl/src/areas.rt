// Areas for C: the summary of a list, and how many pixels of a window have a feature. A window comes as its four numbers.
ghost use Rattle.std.specs.Prelude.{◌≡◌};
ghost use Rattle.definitions.specs.Calls.FillSummary.{fill_summary, filled_summary};
ghost use Rattle.definitions.specs.Calls.Area.{area as area_measured};
ghost use Rattle.definitions.specs.Window.{window_at};

use area::calls as measuring;
use definitions::{Done, Measured, Window};
use summary::calls as filling;

#[unsafe(no_mangle)]
pub extern "C" fn hlq_fill_summary(
    m: u32,
    s: u32,
    keys: &[u32],
    bits: &[u32],
    n: usize,
    summary: &mut [u32],
) -> Done
    ensures value { result ≡ fill_summary m s keys.now bits.now n summary.old }
    ensures summary_after { summary.new ≡ filled_summary m s keys.now bits.now n summary.old }
{
    filling::fill_summary(m, s, keys, bits, n, summary).into()
}

#[unsafe(no_mangle)]
pub extern "C" fn hlq_area(
    m: u32,
    s: u32,
    keys: &[u32],
    bits: &[u32],
    n: usize,
    summary: &[u32],
    row: u32,
    column: u32,
    height: u32,
    width: u32,
    feature: u32,
) -> Measured
    ensures { result ≡ area_measured m s keys.now bits.now n summary.now (window_at row column height width) feature }
{
    let window = Window {
        row,
        column,
        height,
        width,
    };
    measuring::area(m, s, keys, bits, n, summary, window, feature).into()
}
