// Build: a raster becomes its list (specification S4). One pass writes the records. Too little room is refused before anything
// is written, so the records are counted first where the room could be too little.
#![tactic(auto)]

ghost use Rattle.std.specs.Prelude.{◌≡◌, [], ◌∷◌};
ghost use Rattle.definitions.specs.Answered.{as_counted};
ghost use Rattle.definitions.specs.Refusal.{◌gives◌, first, bad_settings, bad_length, bad_pixel};
ghost use Rattle.definitions.specs.Refused.{refusal_told};
ghost use Rattle.definitions.specs.Calls.Build.{build as built, build_keys, build_bits};

use definitions::refusal::Refusal;
use keys::{Key, power};
use list::settings;

pub mod count;
pub mod pixels;
mod small;
pub mod write;

// What settings and raster decide alone: refusals 1, 2 and 3.
pub fn check_raster(m: u32, s: u32, raster: &[u8]) -> Result<(), Refusal>
    ensures { refusal_told result ≡ first (bad_settings m s gives 1 ∷ bad_length m raster.now gives 2 ∷ bad_pixel s raster.now gives 3 ∷ []) }
{
    if settings::are_bad(m, s) {
        return Err(Refusal::Settings);
    }
    let side = power::power_of_two(m) as usize;
    if raster.len() != side * side {
        return Err(Refusal::RasterLength);
    }
    if pixels::has_bad_pixel(s, raster) {
        return Err(Refusal::Pixel);
    }
    Ok(())
}

// How many records the list has of a raster that refusals 1, 2 and 3 pass, or refusal 9. That there is room is known before the first write.
pub fn build_checked(
    m: u32,
    s: u32,
    raster: &[u8],
    keys: &mut [u32],
    bits: &mut [u32],
) -> Result<usize, Refusal>
    requires { first (bad_settings m s gives 1 ∷ bad_length m raster.now gives 2 ∷ bad_pixel s raster.now gives 3 ∷ []) ≡ 0 }
    ensures value { as_counted result ≡ built m s raster.now keys.old bits.old }
    ensures keys_after { keys.new ≡ build_keys m s raster.now keys.old bits.old }
    ensures bits_after { bits.new ≡ build_bits m s raster.now keys.old bits.old }
{
    let side = power::power_of_two(m) as usize;
    let room = keys.len().min(bits.len());
    if !count::has_room(raster, side, m, room) {
        return Err(Refusal::ListRoom);
    }
    let root = write::write_below(raster, side, m, 0, 0, Key::ROOT, 0, keys, bits);
    keys[0] = Key::ROOT;
    bits[0] = root.bits;
    Ok(root.next)
}

// The list of a raster, or the first refusal that applies.
pub fn build(
    m: u32,
    s: u32,
    raster: &[u8],
    keys: &mut [u32],
    bits: &mut [u32],
) -> Result<usize, Refusal>
    ensures value { as_counted result ≡ built m s raster.now keys.old bits.old }
    ensures keys_after { keys.new ≡ build_keys m s raster.now keys.old bits.old }
    ensures bits_after { bits.new ≡ build_bits m s raster.now keys.old bits.old }
{
    check_raster(m, s, raster)?;
    build_checked(m, s, raster, keys, bits)
}
