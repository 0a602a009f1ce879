// What a block and a window have in common: a block of one feature adds so many pixels, and is not entered.
ghost use Rattle.std.specs.Prelude.{◌≡◌, false, ◌≤◌};
ghost use Rattle.keys.specs.Key.{deepest_side};
ghost use Rattle.walk.specs.Walk.{Small, is_apart};
ghost use Rattle.area.specs.Overlap.{Crossing, common, overlap_of, is_summed};

use definitions::Window;
use walk::Spot;

// How many rows, or columns, two runs of them have in common: from the later start to the earlier end.
fn shared(first: u32, side: u32, start: u32, length: u32) -> u32
    requires { Crossing first side start length }
    ensures { (result ≡ common first side start length) × (result ≤ deepest_side) }
{
    (first + side).min(start + length) - first.max(start)
}

// How many pixels of a block lie in a window that it meets.
pub fn overlap(spot: Spot, window: Window) -> u32
    requires { Small spot window × (is_apart spot window ≡ false) }
    ensures { result ≡ overlap_of spot window }
{
    let rows = shared(spot.row, spot.side, window.row, window.height);
    let columns = shared(spot.column, spot.side, window.column, window.width);
    rows * columns
}

// The block lies in the window, and is a block of the summary or lies in one.
#[tactic(auto, unfolding(crate::specs::Overlap::is_summed))]
pub fn is_whole(side: u32, spot: Spot, window: Window) -> bool
    requires { Small spot window }
    ensures { result ≡ is_summed side spot window }
{
    spot.side * 4 <= side && walk::within(spot, window)
}
