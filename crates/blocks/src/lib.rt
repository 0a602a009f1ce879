// The two calls that ask no list: the key of the block of a level around a pixel, and the square of a key. They refuse by their tables, and require
// nothing.
#![tactic(auto)]

ghost use Rattle.std.specs.Prelude.{◌≡◌};
ghost use Rattle.definitions.specs.Refused.{refusal_told};
ghost use Rattle.definitions.specs.Answered.{as_keyed, as_block};
ghost use Rattle.definitions.specs.Calls.KeyAt.{key_at_refusal, key_at};
ghost use Rattle.definitions.specs.Calls.BlockOf.{block_of};

use definitions::refusal::Refusal;
use keys::{Key, Square, power};

// Refusals 1, 6 and 8.
fn key_at_refusal(m: u32, row: u32, column: u32, level: u32) -> Result<(), Refusal>
    ensures { refusal_told result ≡ key_at_refusal m row column level }
{
    if Key::DEEPEST_LEVEL < m {
        return Err(Refusal::Settings);
    }
    let side = power::power_of_two(m);
    if side <= row {
        return Err(Refusal::Window);
    }
    if side <= column {
        return Err(Refusal::Window);
    }
    if m < level {
        return Err(Refusal::Key);
    }
    Ok(())
}

// The key of the block of a level around a pixel: a walker's tap.
pub fn key_at(m: u32, row: u32, column: u32, level: u32) -> Result<Key, Refusal>
    ensures { as_keyed result ≡ key_at m row column level }
{
    key_at_refusal(m, row, column, level)?;
    Ok(Key::around(m, level, row, column))
}

// The square of a key, and its level. Refusals 1 and 8. The digits are read once, but for the level.
pub fn block_of(m: u32, key: u32) -> Result<(Square, u32), Refusal>
    ensures { as_block result ≡ block_of m key }
{
    if Key::DEEPEST_LEVEL < m {
        return Err(Refusal::Settings);
    }
    let block = Key { number: key };
    match block.read(m) {
        Some(square) => Ok((square, block.level(m))),
        None => Err(Refusal::Key),
    }
}
