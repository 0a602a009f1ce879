// The calls that ask an accepted list (specification S4, S5): where a block stands, the part of the key slice that holds it, and the raster. They refuse
// by their tables, and require nothing.
ghost use Rattle.std.specs.Prelude.{◌≡◌, ◌+◌, ◌*◌, IfOk};
ghost use Rattle.definitions.specs.Answered.{as_done, as_stands};
ghost use Rattle.definitions.specs.Refused.{refusal_told};
ghost use Rattle.definitions.specs.Calls.Standing.{standing_refusal, standing as standing_answer};
ghost use Rattle.definitions.specs.Calls.Part.{part as part_answer, part_span};
ghost use Rattle.definitions.specs.Calls.Raster.{raster_refusal, raster as raster_answer, raster_pixels};
ghost use Rattle.list.specs.Taken.{Taken};

use crate::fill;
use definitions::refusal::Refusal;
use definitions::{Span, Standing};
use keys::{Key, power};
use list::accepted_list::Accepted;

// The list that is asked for a block of its map: refusals 1, 4 and 8.
// It is inlined, so that the list is not copied through memory on its way back: on a short list that takes as long as the rest.
#[inline(always)]
fn asked_for_block<'a>(
    m: u32,
    s: u32,
    keys: &'a [u32],
    bits: &'a [u32],
    n: usize,
    key: u32,
) -> Result<Accepted<'a>, Refusal>
    ensures told { refusal_told result ≡ standing_refusal m s keys.now bits.now n key }
    ensures list { IfOk result (Taken m keys.now bits.now n) }
{
    let list = list::accept(m, s, keys, bits, n)?;
    let block = Key { number: key };
    if block.is_valid(m) {
        Ok(list)
    } else {
        Err(Refusal::Key)
    }
}

// Where a block stands.
pub fn standing(
    m: u32,
    s: u32,
    keys: &[u32],
    bits: &[u32],
    n: usize,
    key: u32,
) -> Result<Standing, Refusal>
    ensures { as_stands result ≡ standing_answer m s keys.now bits.now n key }
{
    let list = asked_for_block(m, s, keys, bits, n, key)?;
    Ok(list.stand(key))
}

// Where the part of the key slice that holds a block starts, and how many places it has: a listed block's records, or the leaf's one. A refused call
// gives an empty part at 0, since C is told no refusal here.
pub fn part_span(m: u32, s: u32, keys: &[u32], bits: &[u32], n: usize, key: u32) -> Span
    ensures { result ≡ part_span m s keys.now bits.now n key }
{
    let Ok(list) = asked_for_block(m, s, keys, bits, n, key) else {
        return Span {
            start: 0,
            length: 0,
        };
    };
    match list.stand(key) {
        Standing::Listed(place, records) => Span {
            start: place as u64,
            length: records as u64,
        },
        Standing::Inside(place, ..) => Span {
            start: place as u64,
            length: 1,
        },
    }
}

// The part of the key slice that holds the block and everything below it, or the one record of the leaf around it; empty where it is refused. Which
// part it is, and not only what it holds, is promised: it starts so many places of four bytes into the lent slice.
pub fn part<'a>(m: u32, s: u32, keys: &'a [u32], bits: &[u32], n: usize, key: u32) -> &'a [u32]
    ensures result_value { result.now ≡ part_answer m s keys.now bits.now n key }
    ensures ref_ptr_value { (result.ref_ptr.0 ≡ keys.entry.ref_ptr.0)
        × (result.ref_ptr.1 ≡ keys.entry.ref_ptr.1 + (part_span m s keys.now bits.now n key).start * 4) }
{
    let span = part_span(m, s, keys, bits, n, key);
    let start = span.start as usize;
    let end = start + span.length as usize;
    &keys[start..end]
}

// The list whose raster is asked for: refusals 1, 4 and 2.
fn asked_for_raster<'a>(
    m: u32,
    s: u32,
    keys: &'a [u32],
    bits: &'a [u32],
    n: usize,
    raster: &[u8],
) -> Result<Accepted<'a>, Refusal>
    ensures told { refusal_told result ≡ raster_refusal m s keys.now bits.now n raster.now }
    ensures list { IfOk result (Taken m keys.now bits.now n) }
{
    let list = list::accept(m, s, keys, bits, n)?;
    let side = power::power_of_two(m) as usize;
    if raster.len() != side * side {
        return Err(Refusal::RasterLength);
    }
    Ok(list)
}

// The raster of a list.
pub fn raster(
    m: u32,
    s: u32,
    keys: &[u32],
    bits: &[u32],
    n: usize,
    raster: &mut [u8],
) -> Result<(), Refusal>
    ensures value { as_done result ≡ raster_answer m s keys.now bits.now n raster.old }
    ensures raster_after { raster.new ≡ raster_pixels m s keys.now bits.now n raster.old }
{
    let list = asked_for_raster(m, s, keys, bits, n, raster)?;
    fill::fill_raster(&list, raster);
    Ok(())
}
