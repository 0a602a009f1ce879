// What the walk asks the list: where its block stands (specification S5). The queries take the standing apart here, and use all that it tells.
ghost use Rattle.std.specs.Prelude.{◌≡◌, true, ◌≤◌, length};
ghost use Rattle.keys.specs.Key.{level_of, valid_key};
ghost use Rattle.list.specs.Sorted.{Near};
ghost use Rattle.walk.specs.Walk.{BlockSpot};
ghost use Rattle.walk.specs.Asked.{Tells};

use crate::Spot;
use definitions::Standing;
use keys::{Key, power};
use list::accepted_list::Accepted;

// The record at the place has the bits of the block that was asked for. It is the record of the whole block here: that one itself, where it is listed, or
// the leaf around it. What the bits settle is settled for the whole of it, and the next search can begin at its last record.
#[derive(Clone, Copy, PartialEq, Eq, Debug)]
pub struct Told {
    pub place: usize,
    pub last: usize,
    pub whole: Spot,
}

// The block of a leaf, by its key and level.
fn leaf_of(m: u32, leaf: u32, level: u32) -> Spot
    requires { (m ≤ 10) × (valid_key m leaf ≡ true) × (level ≡ level_of m leaf) }
    ensures { BlockSpot m result × (result.key ≡ leaf) }
{
    let square = Key { number: leaf }.block(m);
    let step = power::power_of_five(m - level);
    Spot {
        key: leaf,
        row: square.row,
        column: square.column,
        side: square.side,
        step,
    }
}

// Where the block stands in an accepted list, looked for from a place on.
pub fn ask(list: &Accepted<'_>, from: usize, spot: Spot) -> Told
    requires { BlockSpot list.now.m spot × Near list.now.keys.now (length list.now.keys.now) from spot.key }
    ensures { Tells list.now.m list.now.keys.now list.now.bits.now (length list.now.keys.now) spot result }
{
    match list.stand_from(from, spot.key, spot.step) {
        Standing::Listed(place, records) => Told {
            place,
            last: place + (records - 1),
            whole: spot,
        },
        Standing::Inside(place, leaf, level) => Told {
            place,
            last: place,
            whole: leaf_of(list.m, leaf, level),
        },
    }
}
