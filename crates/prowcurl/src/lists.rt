// Lists for C: build, raster, standing, part.
ghost use Rattle.std.specs.Prelude.{◌≡◌};
ghost use Rattle.definitions.specs.Calls.Survey.{survey as surveyed, survey_keys, survey_bits, survey_summary};
ghost use Rattle.definitions.specs.Calls.Raster.{raster as raster_answer, raster_pixels};
ghost use Rattle.definitions.specs.Calls.Standing.{standing as standing_answer};
ghost use Rattle.definitions.specs.Calls.Part.{part_span};

use definitions::{Counted, Done, Span, Stands};
use read::calls;

#[unsafe(no_mangle)]
pub extern "C" fn hlq_build(
    m: u32,
    s: u32,
    raster: &[u8],
    keys: &mut [u32],
    bits: &mut [u32],
    summary: &mut [u32],
) -> Counted
    ensures value { result ≡ surveyed m s raster.now keys.old bits.old summary.old }
    ensures keys_after { keys.new ≡ survey_keys m s raster.now keys.old bits.old summary.old }
    ensures bits_after { bits.new ≡ survey_bits m s raster.now keys.old bits.old summary.old }
    ensures summary_after { summary.new ≡ survey_summary m s raster.now keys.old bits.old summary.old }
{
    build_with_summary::survey(m, s, raster, keys, bits, summary).into()
}

#[unsafe(no_mangle)]
pub extern "C" fn hlq_raster(
    m: u32,
    s: u32,
    keys: &[u32],
    bits: &[u32],
    n: usize,
    raster: &mut [u8],
) -> Done
    ensures value { result ≡ raster_answer m s keys.now bits.now n raster.old }
    ensures raster_after { raster.new ≡ raster_pixels m s keys.now bits.now n raster.old }
{
    calls::raster(m, s, keys, bits, n, raster).into()
}

#[unsafe(no_mangle)]
pub extern "C" fn hlq_standing(
    m: u32,
    s: u32,
    keys: &[u32],
    bits: &[u32],
    n: usize,
    key: u32,
) -> Stands
    ensures { result ≡ standing_answer m s keys.now bits.now n key }
{
    calls::standing(m, s, keys, bits, n, key).into()
}

#[unsafe(no_mangle)]
pub extern "C" fn hlq_part(m: u32, s: u32, keys: &[u32], bits: &[u32], n: usize, key: u32) -> Span
    ensures { result ≡ part_span m s keys.now bits.now n key }
{
    calls::part_span(m, s, keys, bits, n, key)
}
