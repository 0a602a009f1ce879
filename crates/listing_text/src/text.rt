// Bytes, numbers and fixed text, written from a place on. Each function answers the place after what it wrote.
ghost use Rattle.std.specs.Prelude.{◌<◌, [], ◌∷◌, ◌++◌};
ghost use Rattle.definitions.specs.Listing.{character_of, decimal};
ghost use Rattle.listing_text.specs.Put.{Put, BytesFit};

pub fn put_byte(byte: u8, out: &mut [u8], place: usize) -> usize
    requires { BytesFit (byte ∷ []) place out.old }
    ensures { Put (byte ∷ []) place out.old out.new result }
{
    out[place] = byte;
    place + 1
}

// The character of a digit.
pub fn put_digit(digit: u64, out: &mut [u8], place: usize) -> usize
    requires { (digit < 10) × BytesFit (character_of digit ∷ []) place out.old }
    ensures { Put (character_of digit ∷ []) place out.old out.new result }
{
    put_byte(48 + digit as u8, out, place)
}

// A number in decimal: the digits of its tenth, then its last digit.
pub fn put_number(x: u64, out: &mut [u8], place: usize) -> usize
    requires { BytesFit (decimal x) place out.old }
    ensures { Put (decimal x) place out.old out.new result }
{
    if x < 10 {
        return put_digit(x, out, place);
    }
    let last = put_number(x / 10, out, place);
    put_digit(x % 10, out, last)
}

// A number, and then the byte that parts it from what follows.
pub fn put_number_then(x: u64, byte: u8, out: &mut [u8], place: usize) -> usize
    requires { BytesFit (decimal x ++ (byte ∷ [])) place out.old }
    ensures { Put (decimal x ++ (byte ∷ [])) place out.old out.new result }
{
    let end = put_number(x, out, place);
    put_byte(byte, out, end)
}

pub fn put_text(text: &[u8], out: &mut [u8], place: usize) -> usize
    requires { BytesFit text.now place out.old }
    ensures { Put text.now place out.old out.new result }
{
    let mut next = place;
    for &byte in text {
        next = put_byte(byte, out, next);
    }
    next
}
