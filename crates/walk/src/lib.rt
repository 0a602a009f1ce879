// The steps of a walk over the blocks that meet a window, in key order: a block is passed with all below it, or entered by its first quadrant, so the
// key rises at every step. The next block's place is read off this one's, without division.
#![tactic(auto)]

ghost use Rattle.std.specs.Prelude.{◌≡◌, ◌+◌, ◌≤◌};
ghost use Rattle.keys.specs.Key.{root_key, all_keys};
ghost use Rattle.walk.specs.Walk.{BlockSpot, Small, is_within, is_apart, first_quadrant, Follows};

pub mod asking;
pub mod bounds;
pub mod lying;

use definitions::Window;
use keys::{Key, power};

// Where the walk stands: a block with its key, its first row and column, its side, and the number of its keys. That these are a block's is said in clauses,
// since it depends on the map's m, which a spot does not carry.
#[derive(Clone, Copy, PartialEq, Eq, Debug)]
pub struct Spot {
    pub key: u32,
    pub row: u32,
    pub column: u32,
    pub side: u32,
    pub step: u32,
}

// The walk begins at the root.
pub fn start(m: u32) -> Spot
    requires { m ≤ 10 }
    ensures { BlockSpot m result × (result.key ≡ root_key) }
{
    Spot {
        key: Key::ROOT,
        row: 0,
        column: 0,
        side: power::power_of_two(m),
        step: power::power_of_five(m),
    }
}

// The block's first quadrant, in the north-west.
pub fn first(spot: Spot) -> Spot
    requires { spot.key + spot.step ≤ all_keys }
    ensures { result ≡ first_quadrant spot }
{
    let step = spot.step / 5;
    Spot {
        key: Key::child(spot.key, step, 1),
        row: spot.row,
        column: spot.column,
        side: spot.side / 2,
        step,
    }
}

// Every pixel of the block lies in the window.
#[tactic(auto, unfolding(crate::specs::Walk::is_within))]
pub fn within(spot: Spot, window: Window) -> bool
    requires { Small spot window }
    ensures { result ≡ is_within spot window }
{
    window.row <= spot.row
        && spot.row + spot.side <= window.row + window.height
        && window.column <= spot.column
        && spot.column + spot.side <= window.column + window.width
}

// No pixel of the block lies in the window.
#[tactic(auto, unfolding(crate::specs::Walk::is_apart))]
pub fn apart(spot: Spot, window: Window) -> bool
    requires { Small spot window }
    ensures { result ≡ is_apart spot window }
{
    spot.row + spot.side <= window.row
        || window.row + window.height <= spot.row
        || spot.column + spot.side <= window.column
        || window.column + window.width <= spot.column
}

// The block that comes after a block and all below it: the next quadrant of the parent, or what comes after the parent; none at the end of the map.
pub fn after(m: u32, spot: Spot) -> Option<Spot>
    requires { (m ≤ 10) × BlockSpot m spot }
    ensures { Follows m (spot.key + spot.step) result }
{
    let whole = power::power_of_two(m);
    let key = spot.key + spot.step;
    let mut row = spot.row;
    let mut column = spot.column;
    let mut side = spot.side;
    let mut step = spot.step;
    while side < whole {
        if column & side == 0 {
            return Some(Spot {
                key,
                row,
                column: column + side,
                side,
                step,
            });
        }
        if row & side == 0 {
            return Some(Spot {
                key,
                row: row + side,
                column: column - side,
                side,
                step,
            });
        }
        row -= side;
        column -= side;
        side = side * 2;
        step = step * 5;
    }
    None
}
