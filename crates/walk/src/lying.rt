// How a square lies to a window.
ghost use Rattle.std.specs.Prelude.{◌≡◌};
ghost use Rattle.walk.specs.Walk.{Small, square_spot, lie_of};

use crate::{Spot, apart, within};
use definitions::Window;
use keys::Square;

// No pixel of it is the window's, or every one is, or the window cuts it.
#[derive(Clone, Copy, PartialEq, Eq, Debug)]
pub enum Lie {
    Apart,
    Within,
    Cut,
}

// By the walk's two tests, which look at neither key nor step.
pub fn lies(square: Square, window: Window) -> Lie
    requires { Small (square_spot square) window }
    ensures { result ≡ lie_of square window }
{
    let spot = Spot {
        key: 0,
        row: square.row,
        column: square.column,
        side: square.side,
        step: 0,
    };
    if apart(spot, window) {
        Lie::Apart
    } else if within(spot, window) {
        Lie::Within
    } else {
        Lie::Cut
    }
}
