// From a block to the one that comes next in key order.
ghost use Rattle.std.specs.Prelude.{◌≡◌, ◌+◌, ◌≤◌, ◌<◌, ◌^◌, drop, eqb};
ghost use Rattle.definitions.specs.BitStrings.{bits_in, key_after};
ghost use Rattle.bit_strings.specs.Steps.{passed};

use crate::bits;
use keys::zeros;

// The key after a leaf (1) or an inner node (every other number).
pub fn key_after(m: u32, key: u32, leaf: u32) -> u32
    requires { (m ≤ 10) × (key < 5 ^ m) }
    ensures { result ≡ key_after m key (eqb leaf 1) }
{
    let step = zeros::keys_in(m, key);
    if leaf == 1 {
        return key + step;
    }
    key + step / 5
}

// Where reading goes on after a block: the next key, and whether a leaf was passed.
#[derive(Clone, Copy)]
pub struct AfterBlock {
    pub key: u32,
    pub leaf: bool,
}

// Past one block. There is no way on where the bits end early, go too deep or show four equal leaf siblings.
pub fn pass(m: u32, key: u32, nodes: &[u8], leaves: &[u8], i: usize, j: usize) -> Option<AfterBlock>
    requires { (m ≤ 10) × (key < 5 ^ m) × (i ≤ key) × (j ≤ i) }
    ensures { result ≡ passed m key (drop i (bits_in nodes.now)) (drop j (bits_in leaves.now)) }
{
    let step = zeros::keys_in(m, key);
    let node = bits::bit_at(nodes, i)?;
    if node {
        let _feature = bits::bit_at(leaves, j)?;
        return Some(AfterBlock {
            key: key + step,
            leaf: true,
        });
    }
    if step == 1 {
        return None;
    }
    if bits::equal_siblings(nodes, leaves, i + 1, j) {
        return None;
    }
    Some(AfterBlock {
        key: key + step / 5,
        leaf: false,
    })
}
