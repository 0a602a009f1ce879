// The listing program (specification S26): it reads m, s and a raster from standard input, and writes the listing of its list, or one line for a
// refusal, to standard output. What is written is `listing_text::list_input`'s promise. A read or a write that fails ends it with that error.
#![tactic(auto)]

use std::io;
use std::io::{Read, Write};

fn main(rt: HostRuntime) -> io::Result<()> {
    // The program's own room: 1,024 pixels behind m and s, with one byte more by which a raster that is too long is seen, 1,365 records, and
    // the longest listing.
    let mut pixels = [0u8; 1027];
    let mut keys = [0u32; 1365];
    let mut bits = [0u32; 1365];
    let mut out = [0u8; 53245];
    let mut reader = rt.reader();
    let mut filled: usize = 0;
    // Each read but the last gives a byte at least.
    for _ in 0..1027 {
        let count = reader.read(&mut pixels[filled..])?;
        if count == 0 {
            break;
        }
        filled += count;
    }
    let count = listing_text::list_input(&pixels[..filled], &mut keys, &mut bits, &mut out);
    io::writer(&rt).write_all(&out[..count])
}
