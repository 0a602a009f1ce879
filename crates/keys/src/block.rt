// A block of the map as the code carries it, and its quadrants: one value for whoever goes down from block to block.
ghost use Rattle.std.specs.Prelude.{◌≡◌, ◌+◌, ◌^◌, ◌≤◌};
ghost use Rattle.keys.specs.Child.{Divisible, KeysEnd, root_of, child_of, block_square};

use crate::{Key, Square, power, quadrant};

// A block as the tree has it: its height, its first row and column, and its key.
#[derive(Clone, Copy, PartialEq, Eq, Debug)]
pub struct TreeBlock {
    pub height: u32,
    pub row: u32,
    pub column: u32,
    pub key: u32,
}

// The whole map.
pub fn root(m: u32) -> TreeBlock
    ensures { result ≡ root_of m }
{
    TreeBlock {
        height: m,
        row: 0,
        column: 0,
        key: Key::ROOT,
    }
}

// The quadrant of a digit: 1 NW, 2 NE, 3 SW, 4 SE.
pub fn child(block: TreeBlock, digit: u32) -> TreeBlock
    requires { Divisible block × (digit ≤ 4) }
    ensures { result ≡ child_of block digit }
{
    let height = block.height - 1;
    let half = power::power_of_two(height);
    let step = power::power_of_five(height);
    let row = block.row + quadrant::southward(digit, half);
    let column = block.column + quadrant::eastward(digit, half);
    let key = Key::child(block.key, step, digit);
    TreeBlock {
        height,
        row,
        column,
        key,
    }
}

// The key after the last one below it.
pub fn end(block: TreeBlock) -> u32
    requires { KeysEnd block }
    ensures { result ≡ block.key + 5 ^ block.height }
{
    block.key + power::power_of_five(block.height)
}

// The pixels that it has.
pub fn square(block: TreeBlock) -> Square
    requires { block.height ≤ 31 }
    ensures { result ≡ block_square block }
{
    let side = power::power_of_two(block.height);
    Square {
        row: block.row,
        column: block.column,
        side,
    }
}
