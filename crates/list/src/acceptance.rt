// What every call that asks a list does first (specification S25): the settings, then the list. Refusals 1 and 4.
ghost use Rattle.std.specs.Prelude.{◌≡◌, ◌≤◌, IfOk};
ghost use Rattle.definitions.specs.Refused.{refusal_told};
ghost use Rattle.list.specs.First.{first_refusal};
ghost use Rattle.list.specs.Own.{OwnList};
ghost use Rattle.list.specs.Taken.{Taken};

use crate::accepted_list::Accepted;
use crate::{check, settings};
use definitions::refusal::Refusal;

// The first n records, which are known to be a list.
pub fn taken<'a>(m: u32, keys: &'a [u32], bits: &'a [u32], n: usize) -> Accepted<'a>
    requires { (m ≤ 10) × OwnList m keys.now bits.now n }
    ensures { Taken m keys.now bits.now n result }
{
    Accepted {
        m,
        keys: &keys[..n],
        bits: &bits[..n],
    }
}

// The list that the first n records are.
pub fn accept<'a>(
    m: u32,
    s: u32,
    keys: &'a [u32],
    bits: &'a [u32],
    n: usize,
) -> Result<Accepted<'a>, Refusal>
    ensures told { refusal_told result ≡ first_refusal m s keys.now bits.now n }
    ensures list { IfOk result (Taken m keys.now bits.now n) }
{
    if settings::are_bad(m, s) {
        return Err(Refusal::Settings);
    }
    if !check::is_list(m, s, keys, bits, n) {
        return Err(Refusal::List);
    }
    Ok(taken(m, keys, bits, n))
}
