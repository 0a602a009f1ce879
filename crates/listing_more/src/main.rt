// Runs the listing program's function on inputs of its own, each under a heading: m = 0, m = 1, m = 5, and each refusal. The expected output
// was worked out by a second implementation. A write that fails ends it with that error.
#![tactic(auto)]

ghost use Rattle.std.specs.Prelude.{◌≡◌, length};

use std::io;
use std::io::Write;

// What the listing program prints for an input.
fn run(out: &mut impl Write, heading: &[u8], input: &[u8]) -> io::Result<()> {
    let mut keys = [0u32; 1365];
    let mut bits = [0u32; 1365];
    let mut text = [0u8; 53245];
    let count = listing_text::list_input(input, &mut keys, &mut bits, &mut text);
    out.write_all(heading)?;
    out.write_all(&text[..count])
}

// The first and the last line of the longest listing, and how many bytes it has.
fn run_longest(out: &mut impl Write, heading: &[u8], input: &[u8]) -> io::Result<()> {
    let mut keys = [0u32; 1365];
    let mut bits = [0u32; 1365];
    let mut text = [0u8; 53245];
    let count = listing_text::list_input(input, &mut keys, &mut bits, &mut text);
    out.write_all(heading)?;
    out.write_all(&text[..10])?;
    out.write_all(&text[53206..])?;
    writeln!(out, "{count}")
}

// Three patches on a background of 0: a whole block, one pixel, and a strip that no block fits.
fn patch(row: usize, column: usize) -> u8 {
    if row < 8 && 24 <= column {
        return 1;
    }
    if row == 21 && column == 13 {
        return 31;
    }
    if 30 <= row && column < 5 {
        return 7;
    }
    0
}

// No two neighbours alike, so that every block is listed.
fn check(row: usize, column: usize) -> u8 {
    if row % 2 == column % 2 { 0 } else { 31 }
}

// m = 5, s = 32 and a raster of 32 by 32, whose pixels a function of row and column gives.
fn largest<F: Fn(usize, usize) -> u8>(pixel: F) -> [u8; 1026]
    requires { F.IsAlwaysCallable pixel }
    ensures { 1026 ≡ length result }
{
    let mut input = [0u8; 1026];
    input[0] = 5;
    input[1] = 32;
    for (i, place) in input[2..].iter_mut().enumerate() {
        *place = pixel(i / 32, i % 32);
    }
    input
}

fn run_largest(out: &mut impl Write) -> io::Result<()> {
    let patched = largest(patch);
    run(out, b"# m = 5, s = 32, three patches\n", &patched)?;
    let checked = largest(check);
    run_longest(
        out,
        b"# m = 5, s = 32, every block listed: first line, last line, bytes\n",
        &checked,
    )?;
    let mut long = [0u8; 1027];
    long[0] = 5;
    long[1] = 32;
    run(out, b"# m = 5, a pixel too many\n", &long)
}

fn run_small(out: &mut impl Write) -> io::Result<()> {
    run(out, b"# m = 0, s = 1\n", b"\x00\x01\x00")?;
    run(out, b"# m = 0, s = 16, feature 15\n", b"\x00\x10\x0f")?;
    run(out, b"# m = 0, s = 32, feature 31\n", b"\x00\x20\x1f")?;
    run(out, b"# m = 1, s = 4\n", b"\x01\x04\x03\x02\x01\x00")?;
    run(
        out,
        b"# m = 1, s = 10, one feature\n",
        b"\x01\x0a\x09\x09\x09\x09",
    )
}

// Refusal 1.
fn run_settings(out: &mut impl Write) -> io::Result<()> {
    run(out, b"# no byte\n", b"")?;
    run(out, b"# one byte\n", b"\x00")?;
    run(out, b"# m = 6\n", b"\x06\x01\x00")?;
    run(out, b"# s = 0\n", b"\x00\x00\x00")?;
    run(out, b"# s = 33\n", b"\x00\x21\x00")
}

// Refusals 2 and 3.
fn run_pixels(out: &mut impl Write) -> io::Result<()> {
    run(out, b"# no pixel\n", b"\x00\x01")?;
    run(out, b"# a pixel too few\n", b"\x01\x02\x00\x01\x00")?;
    run(
        out,
        b"# a pixel too many\n",
        b"\x01\x02\x00\x01\x00\x01\x00",
    )?;
    run(out, b"# a pixel of s\n", b"\x01\x02\x00\x01\x02\x01")?;
    run(
        out,
        b"# a pixel of s, and one too few\n",
        b"\x01\x02\x00\x01\x02",
    )
}

fn main(rt: HostRuntime) -> io::Result<()> {
    let mut out = io::writer(&rt);
    run_small(&mut out)?;
    run_largest(&mut out)?;
    run_settings(&mut out)?;
    run_pixels(&mut out)
}
