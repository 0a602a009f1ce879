// A window of the raster (refusal 6). Its four numbers are any 32-bit numbers, so a sum of two of them is never formed before it is known to fit.
ghost use Rattle.std.specs.Prelude.{◌≡◌, ◌*◌, ◌≤◌};
ghost use Rattle.keys.specs.Key.{deepest_side};
ghost use Rattle.definitions.specs.Window.{is_window};

use definitions::Window;
use keys::power;

// The fact stays a clause of whoever is given a window: a window is the struct that C passes, and the raster is the list's.
#[tactic(auto, unfolding(definitions::specs::Window::is_window))]
pub fn is_window(m: u32, window: Window) -> bool
    requires { m ≤ 10 }
    ensures { result ≡ is_window m window }
{
    let side = power::power_of_two(m);
    window.height != 0
        && window.width != 0
        && window.height <= side
        && window.row <= side - window.height
        && window.width <= side
        && window.column <= side - window.width
}

// How many pixels a window of the raster has.
pub fn pixels_of(window: Window) -> usize
    requires { (window.height ≤ deepest_side) × (window.width ≤ deepest_side) }
    ensures { result ≡ window.height * window.width }
{
    (window.height * window.width) as usize
}
