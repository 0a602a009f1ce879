// One string of a list, written byte by byte from the list's bitstrings.
ghost use Rattle.std.specs.Prelude.{◌≡◌, ◌≤◌, length};
ghost use Rattle.definitions.specs.Buffer.{over};
ghost use Rattle.definitions.specs.BitStrings.{packed_in};
ghost use Rattle.bit_strings.specs.Steps.{bit_told};
ghost use Rattle.bit_strings.specs.Strings.{bit_of, string_of, Picked, ByteFilled};

// The bit that a record has in the string of leaves or in that of nodes, where it has one.
pub fn bit_of(value: u32, leaves: bool) -> Option<bool>
    ensures { bit_told result ≡ bit_of leaves value }
{
    let inner = value % 4 == 3;
    if !leaves {
        if inner {
            return Some(false);
        }
        return Some(true);
    }
    if inner {
        return None;
    }
    Some(value / 2 % 2 == 1)
}

#[derive(Clone, Copy)]
pub struct Bit {
    pub bit: bool,
    pub after: usize,
}

// The next bit of the string from a record on, and the place after the record that has it; zero where no more come.
pub fn next_bit(values: &[u32], at: usize, leaves: bool) -> Bit
    requires { at ≤ length values.now }
    ensures { Picked leaves values.now at result }
{
    // The place after goes along, and is counted before the bit is looked at. With `place + 1` at the return and the length at the end, the compiler
    // carries the places of all eight bits of a byte through each turn, and packing takes 1.4 times as many instructions.
    let mut after = at;
    for place in at..values.len() {
        let found = bit_of(values[place], leaves);
        after += 1;
        if let Some(bit) = found {
            return Bit { bit, after };
        }
    }
    Bit { bit: false, after }
}

#[derive(Clone, Copy)]
pub struct Byte {
    pub byte: u8,
    pub after: usize,
}

// The next eight bits as a byte, the first one high.
pub fn next_byte(values: &[u32], at: usize, leaves: bool) -> Byte
    requires { at ≤ length values.now }
    ensures { ByteFilled leaves values.now at result }
{
    let mut byte: u32 = 0;
    let mut place = at;
    for count in 0..8u32 {
        let next = next_bit(values, place, leaves);
        byte = byte * 2 + u32::from(next.bit);
        place = next.after;
    }
    Byte {
        byte: byte as u8,
        after: place,
    }
}

// So many bytes of the string.
pub fn pack(values: &[u32], leaves: bool, count: usize, out: &mut [u8])
    requires { count ≤ length out.old }
    ensures { out.new ≡ over (packed_in count (string_of leaves values.now)) out.old }
{
    let mut place: usize = 0;
    for k in 0..count {
        let next = next_byte(values, place, leaves);
        out[k] = next.byte;
        place = next.after;
    }
}
