// The check of a summary (refusal 18): its length, and then block after block its counts, most of which the pass over the list has kept.
ghost use Rattle.std.specs.Prelude.{◌≡◌, not, ◌≤◌, IfOk};
ghost use Rattle.keys.specs.Key.{slot_limit};
ghost use Rattle.definitions.specs.Area.{no_summary};
ghost use Rattle.definitions.specs.Refused.{refusal_told};
ghost use Rattle.list.specs.Taken.{Taken, picture_listed};
ghost use Rattle.summary.specs.First.{summary_refusal};

use crate::counted_list::CountedList;
use crate::{blocks, counting};
use definitions::refusal::Refusal;
use list::accepted_list::Accepted;

// The summary is that of the list: refusal 18 does not apply.
fn is_summary(counted: &CountedList<'_>, s: u32, summary: &[u32]) -> bool
    requires { s ≤ slot_limit }
    ensures { result ≡ not (no_summary counted.now.list.m s (picture_listed counted.now.list) summary.now) }
{
    if !blocks::have_length(counted.list.m, s, summary) {
        return false;
    }
    let slots = s as usize;
    let blocks = blocks::number_of(counted.list.m);
    for b in 0..blocks {
        let counts = counted.counts_of(b);
        let at = b * slots;
        if counts[..slots] != summary[at..at + slots] {
            return false;
        }
    }
    true
}

// What every call that asks a list and its summary does first: refusals 1, 4 and 18, or the list.
pub fn accept<'a>(
    m: u32,
    s: u32,
    keys: &'a [u32],
    bits: &'a [u32],
    n: usize,
    summary: &[u32],
) -> Result<Accepted<'a>, Refusal>
    ensures told { refusal_told result ≡ summary_refusal m s keys.now bits.now n summary.now }
    ensures list { IfOk result (Taken m keys.now bits.now n) }
{
    let mut kept = [None; 16];
    let list = counting::accept_counting(m, s, keys, bits, n, &mut kept)?;
    let counted = CountedList { list, kept: &kept };
    if !is_summary(&counted, s, summary) {
        return Err(Refusal::Summary);
    }
    Ok(list)
}
