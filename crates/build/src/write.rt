// Writing the records below a block by its four quadrants, the side halved each time.
ghost use Rattle.std.specs.Prelude.{◌≡◌, ◌+◌, ◌≤◌, ◌<◌};
ghost use Rattle.keys.specs.Key.{all_keys};
ghost use Rattle.definitions.specs.Bits.{union_of_four};
ghost use Rattle.build.specs.BuildBlocks.{picture_of_rows, Inside, FourAsked, FourWritten, Fitting, Written};

use crate::small;
use crate::small::{Pixel, Quad, Sixteen, Small};
use keys::{Key, power};
use list::check;

// The bits of a block, and the place after its records.
#[derive(Clone, Copy)]
pub struct Below {
    pub bits: u32,
    pub next: usize,
}

// The records of four quadrants, each at the place after the one before it, where the four have several features together; else nothing.
#[tactic(auto, unfolding(definitions::specs::Bits::union_of_four))]
pub fn write_four(
    key: u32,
    step: u32,
    place: usize,
    nw: Below,
    ne: Below,
    sw: Below,
    se: Below,
    keys: &mut [u32],
    bits: &mut [u32],
) -> Below
    requires { FourAsked key step place (union_of_four nw.bits ne.bits sw.bits se.bits) nw.next ne.next sw.next keys.old bits.old }
    ensures { FourWritten key step place nw.bits ne.bits sw.bits se.bits nw.next ne.next sw.next se.next keys.old bits.old keys.new bits.new result.bits result.next }
{
    let north = nw.bits | ne.bits;
    let south = sw.bits | se.bits;
    let union = north | south;
    let first = place + 1;
    if check::has_one_slot(union) {
        return Below {
            bits: union,
            next: first,
        };
    }
    let second = nw.next;
    let third = ne.next;
    let fourth = sw.next;
    keys[fourth] = Key::child(key, step, 4);
    bits[fourth] = se.bits;
    keys[third] = Key::child(key, step, 3);
    bits[third] = sw.bits;
    keys[second] = Key::child(key, step, 2);
    bits[second] = ne.bits;
    keys[first] = Key::child(key, step, 1);
    bits[first] = nw.bits;
    let next = se.next;
    Below { bits: union, next }
}

// A block of at most 8 by 8 pixels: the size is a type.
fn write_low(
    raster: &[u8],
    side: usize,
    height: u32,
    row: usize,
    column: usize,
    key: u32,
    place: usize,
    keys: &mut [u32],
    bits: &mut [u32],
) -> Below
    requires { Inside raster.now side height row column × Fitting (picture_of_rows side raster.now) height row column key place keys.old bits.old × (height < 4) }
    ensures { Written (picture_of_rows side raster.now) height row column key place keys.old bits.old keys.new bits.new result.bits result.next }
{
    if height == 3 {
        return small::write_quadrants::<Sixteen>(raster, side, row, column, key, place, keys, bits);
    }
    if height == 2 {
        return Sixteen::write(raster, side, row, column, key, place, keys, bits);
    }
    if height == 1 {
        return Quad::write(raster, side, row, column, key, place, keys, bits);
    }
    Pixel::write(raster, side, row, column, key, place, keys, bits)
}

// Writes the records below a block, and not its own: only its parent knows whether it is listed. Each is written once, at its last
// place. The side is known only when this runs, so it is no type of `small`.
pub fn write_below(
    raster: &[u8],
    side: usize,
    height: u32,
    row: usize,
    column: usize,
    key: u32,
    place: usize,
    keys: &mut [u32],
    bits: &mut [u32],
) -> Below
    requires { Inside raster.now side height row column × Fitting (picture_of_rows side raster.now) height row column key place keys.old bits.old }
    ensures { Written (picture_of_rows side raster.now) height row column key place keys.old bits.old keys.new bits.new result.bits result.next }
{
    if height < 4 {
        return write_low(raster, side, height, row, column, key, place, keys, bits);
    }
    let lower = height - 1;
    let half = power::power_of_two(lower) as usize;
    let step = power::power_of_five(lower);
    let down = row + half;
    let right = column + half;
    let first = place + 1;
    let nw_key = Key::child(key, step, 1);
    let nw = write_below(raster, side, lower, row, column, nw_key, first, keys, bits);
    let second = nw.next;
    let ne_key = Key::child(key, step, 2);
    let ne = write_below(raster, side, lower, row, right, ne_key, second, keys, bits);
    let third = ne.next;
    let sw_key = Key::child(key, step, 3);
    let sw = write_below(raster, side, lower, down, column, sw_key, third, keys, bits);
    let fourth = sw.next;
    let se_key = Key::child(key, step, 4);
    let se = write_below(raster, side, lower, down, right, se_key, fourth, keys, bits);
    write_four(key, step, place, nw, ne, sw, se, keys, bits)
}
