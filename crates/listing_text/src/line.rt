// A record's line: the digits of its key, or "-" where there are none, a blank, and its slots with slot 0 leftmost.
ghost use Rattle.std.specs.Prelude.{◌≤◌, ◌<◌, ◌^◌};
ghost use Rattle.definitions.specs.List.{record_of};
ghost use Rattle.definitions.specs.Listing.{digits_text, key_text, slots_text, line_of};
ghost use Rattle.listing_text.specs.Put.{Put, BytesFit};

use crate::text;
use keys::power;

// The digits of a key, the highest first.
fn put_digits(m: u32, key: u32, out: &mut [u8], place: usize) -> usize
    requires { (m ≤ 10) × (key < 5 ^ m) × BytesFit (digits_text m key) place out.old }
    ensures { Put (digits_text m key) place out.old out.new result }
{
    let mut next = place;
    let mut rest = key;
    let mut step = power::power_of_five(m);
    for _digit in 0..m {
        step /= 5;
        next = text::put_digit(u64::from(rest / step), out, next);
        rest %= step;
    }
    next
}

fn put_key(m: u32, key: u32, out: &mut [u8], place: usize) -> usize
    requires { (m ≤ 10) × (key < 5 ^ m) × BytesFit (key_text m key) place out.old }
    ensures { Put (key_text m key) place out.old out.new result }
{
    if m == 0 {
        text::put_byte(b'-', out, place)
    } else {
        put_digits(m, key, out, place)
    }
}

// A character 0 or 1 for each slot, from slot 0 on.
fn put_slots(s: u32, bits: u32, out: &mut [u8], place: usize) -> usize
    requires { BytesFit (slots_text s bits) place out.old }
    ensures { Put (slots_text s bits) place out.old out.new result }
{
    let mut next = place;
    let mut rest = bits;
    for _slot in 0..s {
        next = text::put_digit(u64::from(rest % 2), out, next);
        rest /= 2;
    }
    next
}

pub fn put_line(m: u32, s: u32, key: u32, bits: u32, out: &mut [u8], place: usize) -> usize
    requires { (m ≤ 10) × (key < 5 ^ m) × BytesFit (line_of m s (record_of key bits)) place out.old }
    ensures { Put (line_of m s (record_of key bits)) place out.old out.new result }
{
    let blank = put_key(m, key, out, place);
    let slots = text::put_byte(b' ', out, blank);
    let end = put_slots(s, bits, out, slots);
    text::put_byte(b'\n', out, end)
}
