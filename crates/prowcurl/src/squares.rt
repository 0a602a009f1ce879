// Blocks for C: the key of the block around a pixel, and the square of a key. They ask no list.
ghost use Rattle.std.specs.Prelude.{◌≡◌};
ghost use Rattle.definitions.specs.Calls.KeyAt.{key_at};
ghost use Rattle.definitions.specs.Calls.BlockOf.{block_of};

use definitions::{Block, Keyed};

#[unsafe(no_mangle)]
pub extern "C" fn hlq_key_at(m: u32, row: u32, column: u32, level: u32) -> Keyed
    ensures { result ≡ key_at m row column level }
{
    blocks::key_at(m, row, column, level).into()
}

#[unsafe(no_mangle)]
pub extern "C" fn hlq_block_of(m: u32, key: u32) -> Block
    ensures { result ≡ block_of m key }
{
    blocks::block_of(m, key).into()
}
