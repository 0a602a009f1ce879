// The pixels of a raster: whether one of them is refused, the bits of one, and whether those of a small block are alike.
ghost use Rattle.std.specs.Prelude.{◌≡◌, true, ◌+◌, ◌^◌, ◌<◌, length};
ghost use Rattle.definitions.specs.Picture.{one_feature};
ghost use Rattle.definitions.specs.Refusal.{bad_pixel};
ghost use Rattle.build.specs.BuildBlocks.{picture_of_rows, word_at, Inside};

use keys::power;

// Refusal 3: some pixel is s or more. It reads on after the first one, so that the loop has no way out and works many pixels at a time: an `any` would
// leave there.
pub fn has_bad_pixel(s: u32, raster: &[u8]) -> bool
    ensures { result ≡ bad_pixel s raster.now }
{
    let mut bad = false;
    for &pixel in raster {
        if s <= u32::from(pixel) {
            bad = true;
        }
    }
    bad
}

// The bits of one pixel.
pub fn pixel(raster: &[u8], side: usize, row: usize, column: usize) -> u32
    requires { Inside raster.now side 0 row column }
    ensures { result ≡ 2 ^ picture_of_rows side raster.now row column }
{
    let place = row * side + column;
    power::power_of_two(u32::from(raster[place]))
}

// The pixels of a block of 2 by 2 are alike. Nothing is promised of a no: such a block is worked in full, which is right for every block. The tests are
// joined by &, so that none of them is a branch.
pub fn quad_alike(raster: &[u8], side: usize, row: usize, column: usize) -> bool
    requires { Inside raster.now side 1 row column }
    ensures { result ≡ true → one_feature (picture_of_rows side raster.now) 1 row column ≡ true }
{
    let north = row * side + column;
    let south = north + side;
    let a = raster[north];
    let b = raster[north + 1];
    let c = raster[south];
    let d = raster[south + 1];
    (a == b) & (a == c) & (a == d)
}

// Four bytes from a place on, as the digits of one number to the base 256: compiled, that is one read.
fn word(raster: &[u8], at: usize) -> u32
    requires { at + 3 < length raster.now }
    ensures { result ≡ word_at raster.now at }
{
    let a = u32::from(raster[at]);
    let b = u32::from(raster[at + 1]);
    let c = u32::from(raster[at + 2]);
    let d = u32::from(raster[at + 3]);
    a + 256 * b + 65536 * c + 16777216 * d
}

// The pixels of a block of 4 by 4 are alike: each row is the first pixel times the number of four digits 1. Nothing is promised of a no.
pub fn sixteen_alike(raster: &[u8], side: usize, row: usize, column: usize) -> bool
    requires { Inside raster.now side 2 row column }
    ensures { result ≡ true → one_feature (picture_of_rows side raster.now) 2 row column ≡ true }
{
    let first = row * side + column;
    let second = first + side;
    let third = second + side;
    let fourth = third + side;
    let all = u32::from(raster[first]) * 16843009;
    let a = word(raster, first);
    let b = word(raster, second);
    let c = word(raster, third);
    let d = word(raster, fourth);
    (a == all) & (b == all) & (c == all) & (d == all)
}
