// The layout of a file (specification S15): how many bytes a bitstring has, where a record lies, and a record read and
// written. Only this file knows it. A width is a number, 2 or 4, and no enum of the two: it counts bytes, and places are summed from it.
ghost use Rattle.std.specs.Prelude.{◌≡◌, ◌+◌, ◌^◌, ◌≤◌, ◌<◌, length};
ghost use Rattle.std.proofs.lemmas.List.Edits.{sets};
ghost use Rattle.definitions.specs.List.{record_of};
ghost use Rattle.definitions.specs.File.{Width, version_for, bit_bytes, file_length, bytes_of_record, number_at};
ghost use Rattle.file.specs.Layout.{file_key_at, file_bits_at, RecordsFit};

use crate::bytes;

// A file of version 1 has up to so many slots.
pub const FIRST_SLOTS: u32 = 16;

#[tactic(auto, using(std::proofs::lemmas::Bool::Decides::nat_tests), unfolding(definitions::specs::File::version_for))]
pub fn version(s: u32) -> u32
    ensures { result ≡ version_for s }
{
    if FIRST_SLOTS < s { 2 } else { 1 }
}

// The bytes of a bitstring.
#[tactic(auto, using(std::proofs::lemmas::Bool::Decides::nat_tests), unfolding(definitions::specs::File::bit_bytes))]
pub fn width(s: u32) -> usize
    ensures { result ≡ bit_bytes s }
{
    if FIRST_SLOTS < s { 4 } else { 2 }
}

// The bytes of a file of n records, and so the place of record n.
pub fn length(width: usize, n: usize) -> usize
    requires { Width width × (file_length width n < 2 ^ 64) }
    ensures { result ≡ file_length width n }
{
    11 + (4 + width) * n
}

// The place of record n with the width asked first: so the compiler makes a loop over records once a width, without a multiplication.
pub fn place(width: usize, n: usize) -> usize
    requires { Width width × (file_length width n < 2 ^ 64) }
    ensures { result ≡ file_length width n }
{
    if width == 2 { 11 + 6 * n } else { 11 + 8 * n }
}

// The bitstring of the record at a place.
pub fn bits_behind(file: &[u8], width: usize, place: usize) -> u32
    requires { Width width × (place + 4 + width ≤ length file.now) }
    ensures { result ≡ number_at (place + 4) width file.now }
{
    if width == 2 {
        bytes::u16_at(file, place + 4)
    } else {
        bytes::u32_at(file, place + 4)
    }
}

pub fn key_at(file: &[u8], width: usize, i: usize) -> u32
    requires { RecordsFit width (i + 1) file.now }
    ensures { result ≡ file_key_at width i file.now }
{
    bytes::u32_at(file, length(width, i))
}

pub fn bits_at(file: &[u8], width: usize, i: usize) -> u32
    requires { RecordsFit width (i + 1) file.now }
    ensures { result ≡ file_bits_at width i file.now }
{
    bits_behind(file, width, length(width, i))
}

// Record i.
pub fn put_record(key: u32, bits: u32, file: &mut [u8], width: usize, i: usize)
    requires { RecordsFit width (i + 1) file.old }
    ensures { file.new ≡ sets file.old (file_length width i) (bytes_of_record width (record_of key bits)) }
{
    let place = length(width, i);
    bytes::put_u32(key, file, place);
    if width == 2 {
        bytes::put_u16(bits, file, place + 4);
    } else {
        bytes::put_u32(bits, file, place + 4);
    }
}
