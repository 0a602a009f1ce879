// Blocks of 1, 4 and 16 pixels, each size a type: a block of the next size is worked by its four quadrants, with no call of itself, since for so
// few pixels a recursive call costs more than the work.
ghost use Rattle.std.specs.Prelude.{ℕ, ◌≡◌, ◌+◌, ◌^◌, ◌≤◌, refl};
ghost use Rattle.std.proofs.Common.{rules};
ghost use Rattle.build.specs.BuildBlocks.{picture_of_rows, Inside, Tallied, Fitting, Written};

use crate::count::{Tally, joined};
use crate::pixels;
use crate::write::{Below, write_four};

// A block whose size is a type.
pub trait Small {
    // The side is 2 ^ height pixels, and the block has 5 ^ height keys.
    ghost height: { ℕ };

    ghost SIDE: { ℕ };

    const SIDE: usize;

    ghost STEP: { ℕ };

    const STEP: u32;

    // The bits of the block, and how many records its list has.
    fn count(raster: &[u8], side: usize, row: usize, column: usize) -> Tally
        requires { Inside raster.now side height row column }
        ensures { Tallied (picture_of_rows side raster.now) height row column result.bits result.count };

    // Writes the records below the block, and not its own.
    fn write(
        raster: &[u8],
        side: usize,
        row: usize,
        column: usize,
        key: u32,
        place: usize,
        keys: &mut [u32],
        bits: &mut [u32],
    ) -> Below
        requires { Inside raster.now side height row column × Fitting (picture_of_rows side raster.now) height row column key place keys.old bits.old }
        ensures { Written (picture_of_rows side raster.now) height row column key place keys.old bits.old keys.new bits.new result.bits result.next };

    ghost low: { height ≤ 9 };

    ghost side_is: { SIDE ≡ 2 ^ height };

    ghost step_is: { STEP ≡ 5 ^ height };
}

// A block by its four quadrants: their tallies, joined.
pub fn count_four<Q: Small>(raster: &[u8], side: usize, row: usize, column: usize) -> Tally
    requires { Inside raster.now side (Q.height + 1) row column }
    ensures { Tallied (picture_of_rows side raster.now) (Q.height + 1) row column result.bits result.count }
{
    let half = Q::SIDE;
    let down = row + half;
    let right = column + half;
    let nw = Q::count(raster, side, row, column);
    let ne = Q::count(raster, side, row, right);
    let sw = Q::count(raster, side, down, column);
    let se = Q::count(raster, side, down, right);
    joined(nw, ne, sw, se)
}

// A block by its four quadrants: what is below them one after the other, and then their own records.
pub fn write_quadrants<Q: Small>(
    raster: &[u8],
    side: usize,
    row: usize,
    column: usize,
    key: u32,
    place: usize,
    keys: &mut [u32],
    bits: &mut [u32],
) -> Below
    requires { Inside raster.now side (Q.height + 1) row column × Fitting (picture_of_rows side raster.now) (Q.height + 1) row column key place keys.old bits.old }
    ensures { Written (picture_of_rows side raster.now) (Q.height + 1) row column key place keys.old bits.old keys.new bits.new result.bits result.next }
{
    let half = Q::SIDE;
    let step = Q::STEP;
    let down = row + half;
    let right = column + half;
    let first = place + 1;
    let nw = Q::write(raster, side, row, column, key + step, first, keys, bits);
    let second = nw.next;
    let ne = Q::write(raster, side, row, right, key + 2 * step, second, keys, bits);
    let third = ne.next;
    let sw = Q::write(
        raster,
        side,
        down,
        column,
        key + 3 * step,
        third,
        keys,
        bits,
    );
    let fourth = sw.next;
    let se = Q::write(
        raster,
        side,
        down,
        right,
        key + 4 * step,
        fourth,
        keys,
        bits,
    );
    write_four(key, step, place, nw, ne, sw, se, keys, bits)
}

// A pixel has one record, and none below it.
pub struct Pixel;

impl Small for Pixel {
    ghost height = { 0 };

    ghost SIDE = { 1 };

    const SIDE: usize = 1;

    ghost STEP = { 1 };

    const STEP: u32 = 1;

    fn count(raster: &[u8], side: usize, row: usize, column: usize) -> Tally {
        let bits = pixels::pixel(raster, side, row, column);
        Tally { bits, count: 1 }
    }

    fn write(
        raster: &[u8],
        side: usize,
        row: usize,
        column: usize,
        _key: u32,
        place: usize,
        _keys: &mut [u32],
        _bits: &mut [u32],
    ) -> Below {
        let bits = pixels::pixel(raster, side, row, column);
        let next = place + 1;
        Below { bits, next }
    }

    ghost low = { Prim.search rules };

    ghost side_is = { refl };

    ghost step_is = { refl };
}

// A block of 2 by 2 pixels: nothing is below it where they are alike.
pub struct Quad;

impl Small for Quad {
    ghost height = { 1 };

    ghost SIDE = { 2 };

    const SIDE: usize = 2;

    ghost STEP = { 5 };

    const STEP: u32 = 5;

    fn count(raster: &[u8], side: usize, row: usize, column: usize) -> Tally {
        count_four::<Pixel>(raster, side, row, column)
    }

    fn write(
        raster: &[u8],
        side: usize,
        row: usize,
        column: usize,
        key: u32,
        place: usize,
        keys: &mut [u32],
        bits: &mut [u32],
    ) -> Below {
        if pixels::quad_alike(raster, side, row, column) {
            return Pixel::write(raster, side, row, column, key, place, keys, bits);
        }
        write_quadrants::<Pixel>(raster, side, row, column, key, place, keys, bits)
    }

    ghost low = { Prim.search rules };

    ghost side_is = { refl };

    ghost step_is = { refl };
}

// A block of 4 by 4 pixels: one record where they are alike.
pub struct Sixteen;

impl Small for Sixteen {
    ghost height = { 2 };

    ghost SIDE = { 4 };

    const SIDE: usize = 4;

    ghost STEP = { 25 };

    const STEP: u32 = 25;

    fn count(raster: &[u8], side: usize, row: usize, column: usize) -> Tally {
        if pixels::sixteen_alike(raster, side, row, column) {
            return Pixel::count(raster, side, row, column);
        }
        count_four::<Quad>(raster, side, row, column)
    }

    fn write(
        raster: &[u8],
        side: usize,
        row: usize,
        column: usize,
        key: u32,
        place: usize,
        keys: &mut [u32],
        bits: &mut [u32],
    ) -> Below {
        if pixels::sixteen_alike(raster, side, row, column) {
            return Pixel::write(raster, side, row, column, key, place, keys, bits);
        }
        write_quadrants::<Quad>(raster, side, row, column, key, place, keys, bits)
    }

    ghost low = { Prim.search rules };

    ghost side_is = { refl };

    ghost step_is = { refl };
}
