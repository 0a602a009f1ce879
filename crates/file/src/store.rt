// Store: a list becomes the bytes of its file. Refusals 1, 4, 12.
ghost use Rattle.std.specs.Prelude.{◌≡◌};
ghost use Rattle.definitions.specs.Answered.{as_counted};
ghost use Rattle.definitions.specs.Calls.Store.{store, store_file};

use crate::{head, layout, records};
use definitions::refusal::Refusal;

// The count is in bytes; with 12 it is the number of bytes needed.
pub fn store(
    m: u32,
    s: u32,
    keys: &[u32],
    bits: &[u32],
    n: usize,
    file: &mut [u8],
) -> Result<usize, Refusal>
    ensures value { as_counted result ≡ store m s keys.now bits.now n file.old }
    ensures file_after { file.new ≡ store_file m s keys.now bits.now n file.old }
{
    let list = list::accept(m, s, keys, bits, n)?;
    let width = layout::width(s);
    let needed = layout::length(width, n);
    if file.len() < needed {
        return Err(Refusal::AnswerRoom(needed as u64));
    }
    head::write_head(m, s, n as u32, file);
    records::write_records(width, list.keys, list.bits, file);
    Ok(needed)
}
