// The pixels of one feature in a block, counted from the bitstrings of its records: one slot is a leaf, else four children follow.
ghost use Rattle.std.specs.Prelude.{◌≡◌, true, cond, ◌≤◌, eqb};
ghost use Rattle.definitions.specs.Bits.{feature_of};
ghost use Rattle.list.specs.Check.{one_slot};
ghost use Rattle.summary.specs.Count.{NodeAt};
ghost use Rattle.area.specs.Tally.{NodeTallied};

use list::check;

// The pixels counted, and the place after the last record passed.
#[derive(Clone, Copy, PartialEq, Eq, Debug)]
pub struct Measure {
    pub pixels: u32,
    pub next: usize,
}

// What a leaf of so many pixels adds.
fn leaf_pixels(bits: u32, bit: u32, area: u32) -> u32
    ensures { (result ≡ cond (eqb bits bit) area 0) × (result ≤ area) }
{
    if bits == bit { area } else { 0 }
}

// The node whose record is at a place of the bitstrings, with so many pixels. A leaf among its children is counted here, so that only nodes are
// called for.
pub fn tally_node(bits: &[u32], bit: u32, at: usize, area: u32) -> Measure
    requires { NodeAt bits.now at area × (area ≤ 1048576) × (one_slot bit ≡ true) }
    ensures { NodeTallied bits.now at area (feature_of bit) result }
{
    let quarter = area / 4;
    let mut pixels = 0;
    let mut next = at + 1;
    for _ in 0..4u32 {
        let found = bits[next];
        if check::has_one_slot(found) {
            pixels = pixels + leaf_pixels(found, bit, quarter);
            next += 1;
        } else {
            let inner = tally_node(bits, bit, next, quarter);
            pixels = pixels + inner.pixels;
            next = inner.next;
        }
    }
    Measure { pixels, next }
}
