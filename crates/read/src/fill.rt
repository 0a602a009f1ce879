// Raster from list: one pass over the bitstrings, whose structure they tell alone: one slot is a leaf, else four children follow. Each leaf fills
// its square row by row.
ghost use Rattle.std.specs.Prelude.{ℕ, ◌≡◌, true, ◌+◌, ◌*◌, ◌/◌, ◌%◌, ◌^◌, ◌≤◌, ◌<◌, length};
ghost use Rattle.definitions.specs.Bits.{feature_of};
ghost use Rattle.definitions.specs.Window.{features_of_rows};
ghost use Rattle.list.specs.Check.{one_slot};
ghost use Rattle.list.specs.Taken.{picture_listed};
ghost use Rattle.read.specs.Fill.{filled_by, in_run, rectangle_painted, corner_of, ShowsNode, NodeFilled};

use keys::power;
use list::accepted_list::Accepted;
use list::{check, feature};

// The feature of a leaf as a pixel has it, in one byte.
fn feature_of(bits: u32) -> u8
    requires { one_slot bits ≡ true }
    ensures { result ≡ feature_of bits }
{
    feature::feature_of(bits) as u8
}

// The places of a row from one up to another.
fn fill_row(raster: &mut [u8], from: usize, until: usize, feature: u8)
    requires { (from ≤ until) × (until ≤ length raster.old) }
    ensures { raster.new ≡ filled_by (in_run from until) (λ i. feature) raster.old }
{
    raster[from..until].fill(feature);
}

// A square whose first pixel is at a place, in a raster whose rows have the given width. Its side is known only when this runs, so it is no type.
fn fill_square(raster: &mut [u8], wide: usize, place: usize, side: usize, feature: u8)
    requires { (place % wide + side ≤ wide) × ((place / wide + side) * wide ≤ length raster.old) × (0 < wide) }
    ensures { raster.new ≡ rectangle_painted wide (λ a b. feature) (place / wide) (place % wide) side side raster.old }
{
    let mut from = place;
    for row in 0..side {
        fill_row(raster, from, from + side, feature);
        from += wide;
    }
}

// A pixel.
fn fill_pixel(raster: &mut [u8], wide: usize, place: usize, feature: u8)
    requires { (place % wide + 1 ≤ wide) × ((place / wide + 1) * wide ≤ length raster.old) × (0 < wide) }
    ensures { raster.new ≡ rectangle_painted wide (λ a b. feature) (place / wide) (place % wide) 1 1 raster.old }
{
    raster[place] = feature;
}

// So many pixels of one row as the type says, and a square of so many rows of them: most leaves are that small, so a constant number of stores is all
// they need.
fn fill_run<const SIDE: usize>(raster: &mut [u8], from: usize, feature: u8)
    requires { from + SIDE ≤ length raster.old }
    ensures { raster.new ≡ filled_by (in_run from (from + SIDE)) (λ i. feature) raster.old }
{
    for column in 0..SIDE {
        raster[from + column] = feature;
    }
}

fn fill_small<const SIDE: usize>(raster: &mut [u8], wide: usize, place: usize, feature: u8)
    requires { (place % wide + SIDE ≤ wide) × ((place / wide + SIDE) * wide ≤ length raster.old) × (0 < wide) }
    ensures { raster.new ≡ rectangle_painted wide (λ a b. feature) (place / wide) (place % wide) SIDE SIDE raster.old }
{
    let mut from = place;
    for row in 0..SIDE {
        fill_run::<SIDE>(raster, from, feature);
        from += wide;
    }
}

// The first place of a quadrant; south is what the southern quadrants lie further on.
fn corner_of(d: usize, place: usize, half: usize, south: usize) -> usize
    requires { place + south + half < 2 ^ 64 }
    ensures { result ≡ corner_of d place half south }
{
    match d {
        0 => place,
        1 => place + half,
        2 => place + south,
        _ => place + south + half,
    }
}

// The node of side 2 whose record is at a place of the bitstrings: its four pixels follow.
fn fill_pixels(bits: &[u32], raster: &mut [u8], wide: usize, at: usize, place: usize)
    requires { ShowsNode bits.now at wide place 2 (length raster.old) }
    ensures { NodeFilled bits.now at wide place 2 raster.old raster.new (at + 5) }
{
    let nw = feature_of(bits[at + 1]);
    let ne = feature_of(bits[at + 2]);
    let sw = feature_of(bits[at + 3]);
    let se = feature_of(bits[at + 4]);
    fill_pixel(raster, wide, place, nw);
    fill_pixel(raster, wide, place + 1, ne);
    fill_pixel(raster, wide, place + wide, sw);
    fill_pixel(raster, wide, place + wide + 1, se);
}

// A block whose side is a type: nearly all nodes have side 2, 4, 8 or 16, so these are filled without recursion, and their leaves without a call for
// each row.
trait Block {
    ghost SIDE: { ℕ };

    const SIDE: usize;

    // Fills a leaf with its feature.
    fn fill_leaf(raster: &mut [u8], wide: usize, place: usize, feature: u8)
        requires { (place % wide + SIDE ≤ wide) × ((place / wide + SIDE) * wide ≤ length raster.old) × (0 < wide) }
        ensures { raster.new ≡ rectangle_painted wide (λ a b. feature) (place / wide) (place % wide) SIDE SIDE raster.old };

    // Fills the node whose record is at a place of the bitstrings. The place after the node's last record is given back.
    fn fill_node(bits: &[u32], raster: &mut [u8], wide: usize, at: usize, place: usize) -> usize
        requires { ShowsNode bits.now at wide place SIDE (length raster.old) }
        ensures { NodeFilled bits.now at wide place SIDE raster.old raster.new result };
}

struct TwoByTwo;

impl Block for TwoByTwo {
    ghost SIDE = { 2 };

    const SIDE: usize = 2;

    fn fill_leaf(raster: &mut [u8], wide: usize, place: usize, feature: u8) {
        fill_small::<2>(raster, wide, place, feature);
    }

    fn fill_node(bits: &[u32], raster: &mut [u8], wide: usize, at: usize, place: usize) -> usize {
        fill_pixels(bits, raster, wide, at, place);
        at + 5
    }
}

struct FourByFour;

impl Block for FourByFour {
    ghost SIDE = { 4 };

    const SIDE: usize = 4;

    fn fill_leaf(raster: &mut [u8], wide: usize, place: usize, feature: u8) {
        fill_small::<4>(raster, wide, place, feature);
    }

    fn fill_node(bits: &[u32], raster: &mut [u8], wide: usize, at: usize, place: usize) -> usize {
        fill_quadrants::<TwoByTwo>(bits, raster, wide, at, place)
    }
}

struct EightByEight;

impl Block for EightByEight {
    ghost SIDE = { 8 };

    const SIDE: usize = 8;

    fn fill_leaf(raster: &mut [u8], wide: usize, place: usize, feature: u8) {
        fill_small::<8>(raster, wide, place, feature);
    }

    fn fill_node(bits: &[u32], raster: &mut [u8], wide: usize, at: usize, place: usize) -> usize {
        fill_quadrants::<FourByFour>(bits, raster, wide, at, place)
    }
}

// The node of twice a type's side. A leaf among the four children is filled here, so that only nodes are called for.
fn fill_quadrants<B: Block>(
    bits: &[u32],
    raster: &mut [u8],
    wide: usize,
    at: usize,
    place: usize,
) -> usize
    requires { ShowsNode bits.now at wide place (2 * B.SIDE) (length raster.old) }
    ensures { NodeFilled bits.now at wide place (2 * B.SIDE) raster.old raster.new result }
{
    let half = B::SIDE;
    let south = half * wide;
    let mut next = at + 1;
    for d in 0..4 {
        let corner = corner_of(d, place, half, south);
        let found = bits[next];
        if check::is_leaf(found) {
            B::fill_leaf(raster, wide, corner, feature_of(found));
            next += 1;
        } else {
            next = B::fill_node(bits, raster, wide, next, corner);
        }
    }
    next
}

// The node of any side, known only when this runs. A leaf among the four children is filled here, so that only nodes are called for.
fn fill_node(
    bits: &[u32],
    raster: &mut [u8],
    wide: usize,
    at: usize,
    place: usize,
    side: usize,
) -> usize
    requires { ShowsNode bits.now at wide place side (length raster.old) }
    ensures { NodeFilled bits.now at wide place side raster.old raster.new result }
{
    let half = side / 2;
    let south = half * wide;
    let mut next = at + 1;
    for d in 0..4 {
        let corner = corner_of(d, place, half, south);
        let found = bits[next];
        if check::is_leaf(found) {
            fill_square(raster, wide, corner, half, feature_of(found));
            next += 1;
        } else if half == 16 {
            next = fill_quadrants::<EightByEight>(bits, raster, wide, next, corner);
        } else {
            next = fill_node(bits, raster, wide, next, corner, half);
        }
    }
    next
}

// The raster of an accepted list. Of a map of 16 by 16 pixels the root itself is a node whose side is a type.
pub fn fill_raster(list: &Accepted<'_>, raster: &mut [u8])
    requires { length raster.old ≡ 2 ^ list.now.m * 2 ^ list.now.m }
    ensures { raster.new ≡ features_of_rows (picture_listed list.now) 0 0 (2 ^ list.now.m) (2 ^ list.now.m) }
{
    let side = power::power_of_two(list.m) as usize;
    let own = list.bits[0];
    if check::has_one_slot(own) {
        fill_square(raster, side, 0, side, feature_of(own));
    } else if side == 16 {
        let _end = fill_quadrants::<EightByEight>(list.bits, raster, side, 0, 0);
    } else {
        let _end = fill_node(list.bits, raster, side, 0, 0, side);
    }
}
