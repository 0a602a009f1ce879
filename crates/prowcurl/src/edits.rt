// Edits for C: paint, paint a window, take back, redo, empty.
ghost use Rattle.std.specs.Prelude.{◌≡◌};
ghost use Rattle.definitions.specs.Calls.Empty.{emptied};
ghost use Rattle.definitions.specs.Calls.Paint.{Painted};
ghost use Rattle.definitions.specs.Window.{window_at};
ghost use Rattle.definitions.specs.Calls.PaintWindow.{WindowPainted};
ghost use Rattle.definitions.specs.Calls.Redo.{Redone};
ghost use Rattle.definitions.specs.Calls.TakeBack.{TakenBack};

use definitions::{Edited, Emptied, Window};
use edit::{empty, paint};
use undo::{redo as redoing, take_back};
use window_paint::paint_window;

#[unsafe(no_mangle)]
pub extern "C" fn hlq_paint(
    m: u32,
    s: u32,
    keys: &mut [u32],
    bits: &mut [u32],
    n: usize,
    summary: &mut [u32],
    log_keys: &mut [u32],
    log_values: &mut [u32],
    used: usize,
    in_force: usize,
    key: u32,
    feature: u32,
) -> Edited
    ensures { Painted m s keys.old bits.old n summary.old log_keys.old log_values.old used in_force key feature
        result keys.new bits.new summary.new log_keys.new log_values.new }
{
    paint::paint(
        m, s, keys, bits, n, summary, log_keys, log_values, used, in_force, key, feature,
    )
    .into()
}

#[unsafe(no_mangle)]
pub extern "C" fn hlq_paint_window(
    m: u32,
    s: u32,
    keys: &mut [u32],
    bits: &mut [u32],
    n: usize,
    summary: &mut [u32],
    log_keys: &mut [u32],
    log_values: &mut [u32],
    used: usize,
    in_force: usize,
    row: u32,
    column: u32,
    height: u32,
    width: u32,
    feature: u32,
) -> Edited
    ensures { WindowPainted m s keys.old bits.old n summary.old log_keys.old log_values.old used in_force (window_at row column height width) feature
        result keys.new bits.new summary.new log_keys.new log_values.new }
{
    let window = Window {
        row,
        column,
        height,
        width,
    };
    paint_window::paint_window(
        m, s, keys, bits, n, summary, log_keys, log_values, used, in_force, window, feature,
    )
    .into()
}

#[unsafe(no_mangle)]
pub extern "C" fn hlq_take_back(
    m: u32,
    s: u32,
    keys: &mut [u32],
    bits: &mut [u32],
    n: usize,
    summary: &mut [u32],
    log_keys: &mut [u32],
    log_values: &mut [u32],
    used: usize,
    in_force: usize,
) -> Edited
    ensures { TakenBack m s keys.old bits.old n summary.old log_keys.old log_values.old used in_force
        result keys.new bits.new summary.new log_keys.new log_values.new }
{
    take_back::take_back(
        m, s, keys, bits, n, summary, log_keys, log_values, used, in_force,
    )
    .into()
}

#[unsafe(no_mangle)]
pub extern "C" fn hlq_redo(
    m: u32,
    s: u32,
    keys: &mut [u32],
    bits: &mut [u32],
    n: usize,
    summary: &mut [u32],
    log_keys: &mut [u32],
    log_values: &mut [u32],
    used: usize,
    in_force: usize,
) -> Edited
    ensures { Redone m s keys.old bits.old n summary.old log_keys.old log_values.old used in_force
        result keys.new bits.new summary.new log_keys.new log_values.new }
{
    redoing::redo(
        m, s, keys, bits, n, summary, log_keys, log_values, used, in_force,
    )
    .into()
}

#[unsafe(no_mangle)]
pub extern "C" fn hlq_empty() -> Emptied
    ensures { result ≡ emptied }
{
    empty::empty()
}
