// The lines that the listing program prints (specification S26), written into a lent slice.
#![tactic(auto)]

ghost use Rattle.listing_text.specs.Lent.{Lent, Printed};

mod line;
mod listing;
mod text;

use definitions::refusal::Refusal;

// Rasters are up to 32 by 32, so that their pixels and records have room in the program's own arrays.
const LARGEST_RESOLUTION: u32 = 5;

// What the program prints for its input of m, s and a raster, and how many bytes that is.
pub fn list_input(input: &[u8], keys: &mut [u32], bits: &mut [u32], out: &mut [u8]) -> usize
    requires { Lent keys.old bits.old out.old }
    ensures { Printed input.now keys.old bits.old out.old keys.new bits.new out.new result }
{
    if input.len() < 2 {
        return listing::put_refusal(Refusal::Settings, out);
    }
    let m = u32::from(input[0]);
    let s = u32::from(input[1]);
    if LARGEST_RESOLUTION < m {
        return listing::put_refusal(Refusal::Settings, out);
    }
    match build::build(m, s, &input[2..], keys, bits) {
        Ok(n) => listing::put_listing(m, s, &keys[..n], &bits[..n], out),
        Err(refusal) => listing::put_refusal(refusal, out),
    }
}
