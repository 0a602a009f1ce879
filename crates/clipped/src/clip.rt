// The overlap of a dragged window with the raster. Start and length are any 32-bit numbers, so their sum is never formed.
ghost use Rattle.std.specs.Prelude.{◌≡◌, ◌≤◌, ◌^◌};
ghost use Rattle.definitions.specs.Clip.{not_before, overlap_length, clipped_window};

use definitions::Window;
use keys::power;

// The raster's side. Every call refuses an m above 10 whatever the window is, so 0 serves there.
fn side_of(m: u32) -> u32
    ensures { m ≤ 10 → result ≡ 2 ^ m }
{
    if 10 < m { 0 } else { power::power_of_two(m) }
}

// The first line of the overlap.
fn not_before(start: i32) -> u32
    ensures { result ≡ not_before start }
{
    u32::try_from(start).unwrap_or(0)
}

// How many lines the overlap has. Of a window that begins before the raster the lines there are taken off.
fn overlap_length(start: i32, length: u32, side: u32) -> u32
    ensures { result ≡ overlap_length start length side }
{
    match u32::try_from(start) {
        Ok(first) => length.min(side.saturating_sub(first)),
        Err(_) => length.saturating_sub(start.unsigned_abs()).min(side),
    }
}

// The window clipped to the raster; without a common pixel its height or width is 0, which every strict call refuses by 6.
pub fn clipped_window(m: u32, row: i32, column: i32, height: u32, width: u32) -> Window
    ensures { m ≤ 10 → result ≡ clipped_window m row column height width }
{
    let side = side_of(m);
    Window {
        row: not_before(row),
        column: not_before(column),
        height: overlap_length(row, height, side),
        width: overlap_length(column, width, side),
    }
}
