// Counting the records of a block by its four quadrants, the side halved each time.
ghost use Rattle.std.specs.Prelude.{◌≡◌, ◌+◌, ◌^◌, ◌≤◌, ◌<◌, length, leb};
ghost use Rattle.definitions.specs.Bits.{union_of_four};
ghost use Rattle.definitions.specs.List.{list_of};
ghost use Rattle.build.specs.BuildBlocks.{picture_of_rows, Inside, Joined, Tallied};

use crate::small;
use crate::small::{Pixel, Quad, Sixteen, Small};
use keys::power;
use list::check;

// The bits of a block, and how many records its list has.
#[derive(Clone, Copy)]
pub struct Tally {
    pub bits: u32,
    pub count: usize,
}

// A block of four quadrants: one record where they have one feature together, else its own and theirs. They come by name and in no array, since every
// caller has them so.
pub fn joined(nw: Tally, ne: Tally, sw: Tally, se: Tally) -> Tally
    requires { (nw.count ≤ 5 ^ 9) × (ne.count ≤ 5 ^ 9) × (sw.count ≤ 5 ^ 9) × (se.count ≤ 5 ^ 9) }
    ensures { Joined (union_of_four nw.bits ne.bits sw.bits se.bits) (nw.count + (ne.count + (sw.count + se.count))) result.bits result.count }
{
    let north = nw.bits | ne.bits;
    let south = sw.bits | se.bits;
    let bits = north | south;
    if check::has_one_slot(bits) {
        return Tally { bits, count: 1 };
    }
    let southern = sw.count + se.count;
    let others = ne.count + southern;
    let below = nw.count + others;
    Tally {
        bits,
        count: 1 + below,
    }
}

// A block of at most 8 by 8 pixels: the size is a type.
fn count_low(raster: &[u8], side: usize, height: u32, row: usize, column: usize) -> Tally
    requires { Inside raster.now side height row column × (height < 4) }
    ensures { Tallied (picture_of_rows side raster.now) height row column result.bits result.count }
{
    if height == 3 {
        return small::count_four::<Sixteen>(raster, side, row, column);
    }
    if height == 2 {
        return Sixteen::count(raster, side, row, column);
    }
    if height == 1 {
        return Quad::count(raster, side, row, column);
    }
    Pixel::count(raster, side, row, column)
}

// A block by its four quadrants, the side halved: the height falls at each call. The side is known only when this runs, so it is no type of `small`.
fn count_block(raster: &[u8], side: usize, height: u32, row: usize, column: usize) -> Tally
    requires { Inside raster.now side height row column }
    ensures { Tallied (picture_of_rows side raster.now) height row column result.bits result.count }
{
    if height < 4 {
        return count_low(raster, side, height, row, column);
    }
    let lower = height - 1;
    let half = power::power_of_two(lower) as usize;
    let down = row + half;
    let right = column + half;
    let nw = count_block(raster, side, lower, row, column);
    let ne = count_block(raster, side, lower, row, right);
    let sw = count_block(raster, side, lower, down, column);
    let se = count_block(raster, side, lower, down, right);
    joined(nw, ne, sw, se)
}

// The list of the whole raster fits into the room. It is counted only where the longest list of so many pixels would not fit.
pub fn has_room(raster: &[u8], side: usize, height: u32, room: usize) -> bool
    requires { Inside raster.now side height 0 0 × (side ≡ 2 ^ height) }
    ensures { result ≡ leb (length (list_of (picture_of_rows side raster.now) height 0 0 0)) room }
{
    let most = (4 * raster.len() - 1) / 3;
    if most <= room {
        return true;
    }
    let whole = count_block(raster, side, height, 0, 0);
    whole.count <= room
}
