// The largest blocks of a window, by the quadrants of the map: how a block lies to the window, and what their entries will need.
ghost use Rattle.std.specs.Prelude.{◌≡◌, ◌+◌, ◌^◌, [], ◌∷◌};
ghost use Rattle.keys.specs.Child.{InMap};
ghost use Rattle.list.specs.Taken.{picture_listed};
ghost use Rattle.window_paint.specs.WindowLogging.{largest_in, Placed, Lying, place_told, NeededFor};
ghost use Rattle.window_paint.specs.Searching.{SmallWindow, NearIn, BlockSought};

use definitions::{Standing, Window};
use edit::logging;
use edit_log::entry;
use keys::block::{TreeBlock, child, square};
use keys::power;
use list::accepted_list::Accepted;
use walk::lying;
use walk::lying::Lie;

// A block to a window: none of the largest blocks lies in it, it is one itself, or its quadrants have to be asked.
pub fn lies(window: Window, block: TreeBlock) -> Lie
    requires { Placed window block }
    ensures { Lying window block result }
{
    lying::lies(square(block), window)
}

// The place where a block was found, or the leaf around it: the search for the next block can begin there.
pub fn place_found(standing: Standing) -> usize
    ensures { result ≡ place_told standing }
{
    match standing {
        Standing::Listed(place, _) => place,
        Standing::Inside(place, _, _) => place,
    }
}

// The number of blocks, how many places of the log their entries take, and the place where the search for the next block begins.
#[derive(Clone, Copy)]
pub struct Needed {
    pub number: u32,
    pub places: usize,
    pub from: usize,
}

// What one block needs, which is looked for from a place on.
fn need_one(list: &Accepted<'_>, block: TreeBlock, from: usize) -> Needed
    requires { BlockSought list.now block from }
    ensures { NeededFor list.now.m (picture_listed list.now) (block.key ∷ []) result.number result.places
        × NearIn list.now result.from (block.key + 5 ^ block.height) }
{
    let step = power::power_of_five(block.height);
    let standing = list.stand_from(from, block.key, step);
    Needed {
        number: 1,
        places: entry::places(logging::content_count(standing)),
        from: place_found(standing),
    }
}

// What the largest blocks at or below a block need. They come in key order, so each is looked for from where the last one was found: the quadrants are four
// calls, one after the other. The descent is written out here and where entries are logged, since what the two hand on is not the same.
pub fn need_below(list: &Accepted<'_>, window: Window, block: TreeBlock, from: usize) -> Needed
    requires { SmallWindow window × InMap list.now.m block × NearIn list.now from block.key }
    ensures { NeededFor list.now.m (picture_listed list.now) (largest_in window block) result.number result.places
        × NearIn list.now result.from (block.key + 5 ^ block.height) }
{
    match lies(window, block) {
        Lie::Apart => Needed {
            number: 0,
            places: 0,
            from,
        },
        Lie::Within => need_one(list, block, from),
        Lie::Cut => {
            let nw = need_below(list, window, child(block, 1), from);
            let ne = need_below(list, window, child(block, 2), nw.from);
            let sw = need_below(list, window, child(block, 3), ne.from);
            let se = need_below(list, window, child(block, 4), sw.from);
            Needed {
                number: nw.number + ne.number + sw.number + se.number,
                places: nw.places + ne.places + sw.places + se.places,
                from: se.from,
            }
        }
    }
}
