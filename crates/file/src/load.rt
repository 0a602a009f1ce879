// Load: the bytes of a file become a list. Refusals 15 (under 11 bytes), 16, 17, 1, 15 (length), 4 (the file's own records), 9.
ghost use Rattle.std.specs.Prelude.{◌≡◌, List, ℕ, length, IfOk};
ghost use Rattle.definitions.specs.Refused.{refusal_told};
ghost use Rattle.definitions.specs.Answered.{as_loaded};
ghost use Rattle.definitions.specs.Calls.Load.{load_refusal, load, load_keys, load_bits};
ghost use Rattle.file.specs.Head.{HeadIn};

use crate::{check_file, head, layout, records};
use definitions::answers::ListHead;
use definitions::refusal::Refusal;

// What the head says, where two slices of the given lengths are lent and no refusal applies.
fn accept(file: &[u8], in_keys: usize, in_bits: usize) -> Result<ListHead, Refusal>
    ensures told { (keys bits : List ℕ)
        → length keys ≡ in_keys
        → length bits ≡ in_bits
        → refusal_told result ≡ load_refusal file.now keys bits }
    ensures head { IfOk result (HeadIn file.now) }
{
    let head = head::read(file)?;
    if !check_file::holds_list(file, head) {
        return Err(Refusal::List);
    }
    if in_keys < head.n || in_bits < head.n {
        return Err(Refusal::ListRoom);
    }
    Ok(head)
}

// Nothing is written before all is accepted.
pub fn load(file: &[u8], keys: &mut [u32], bits: &mut [u32]) -> Result<ListHead, Refusal>
    ensures value { as_loaded result ≡ load file.now keys.old bits.old }
    ensures keys_after { keys.new ≡ load_keys file.now keys.old bits.old }
    ensures bits_after { bits.new ≡ load_bits file.now keys.old bits.old }
{
    let head = accept(file, keys.len(), bits.len())?;
    records::read(layout::width(head.s), file, head.n, keys, bits);
    Ok(head)
}
