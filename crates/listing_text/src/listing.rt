// What is printed of an accepted input and of a refused one.
ghost use Rattle.std.specs.Prelude.{length};
ghost use Rattle.definitions.specs.Read.{records_of};
ghost use Rattle.definitions.specs.Refused.{refusal_number};
ghost use Rattle.definitions.specs.Listing.{head_line, lines_of, listing, refusal_line};
ghost use Rattle.listing_text.specs.Put.{Put, BytesFit, Records};

use crate::{line, text};
use definitions::refusal::Refusal;

// The line with m, s and n.
pub fn put_head(m: u32, s: u32, n: usize, out: &mut [u8]) -> usize
    requires { BytesFit (head_line m s n) 0 out.old }
    ensures { Put (head_line m s n) 0 out.old out.new result }
{
    let second = text::put_number_then(u64::from(m), b' ', out, 0);
    let third = text::put_number_then(u64::from(s), b' ', out, second);
    text::put_number_then(n as u64, b'\n', out, third)
}

// The line of a refused input.
pub fn put_refusal(refusal: Refusal, out: &mut [u8]) -> usize
    requires { BytesFit (refusal_line (refusal_number refusal)) 0 out.old }
    ensures { Put (refusal_line (refusal_number refusal)) 0 out.old out.new result }
{
    let place = text::put_text(b"refused ", out, 0);
    text::put_number_then(u64::from(refusal), b'\n', out, place)
}

// A line per record.
fn put_lines(m: u32, s: u32, keys: &[u32], bits: &[u32], out: &mut [u8], place: usize) -> usize
    requires { Records m keys.now bits.now (length keys.now)
        × BytesFit (lines_of m s (records_of keys.now bits.now (length keys.now))) place out.old }
    ensures { Put (lines_of m s (records_of keys.now bits.now (length keys.now))) place out.old out.new result }
{
    let mut next = place;
    for i in 0..keys.len() {
        next = line::put_line(m, s, keys[i], bits[i], out, next);
    }
    next
}

// The lines of an accepted input, whose list is just these records.
pub fn put_listing(m: u32, s: u32, keys: &[u32], bits: &[u32], out: &mut [u8]) -> usize
    requires { Records m keys.now bits.now (length keys.now)
        × BytesFit (listing m s (records_of keys.now bits.now (length keys.now))) 0 out.old }
    ensures { Put (listing m s (records_of keys.now bits.now (length keys.now))) 0 out.old out.new result }
{
    let place = put_head(m, s, keys.len(), out);
    put_lines(m, s, keys, bits, out, place)
}
