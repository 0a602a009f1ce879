// The call that fills the summary of a list (specification S8.8). It refuses by its table, and requires nothing.
ghost use Rattle.std.specs.Prelude.{◌≡◌};
ghost use Rattle.definitions.specs.Answered.{as_done};
ghost use Rattle.definitions.specs.Calls.FillSummary.{fill_summary, filled_summary};

use crate::counted_list::CountedList;
use crate::{blocks, counting, renew};
use definitions::refusal::Refusal;

// Refusals 1, 4 and 18, or every place of the summary is written.
pub fn fill_summary(
    m: u32,
    s: u32,
    keys: &[u32],
    bits: &[u32],
    n: usize,
    summary: &mut [u32],
) -> Result<(), Refusal>
    ensures value { as_done result ≡ fill_summary m s keys.now bits.now n summary.old }
    ensures summary_after { summary.new ≡ filled_summary m s keys.now bits.now n summary.old }
{
    let mut kept = [None; 16];
    let list = counting::accept_counting(m, s, keys, bits, n, &mut kept)?;
    if !blocks::have_length(m, s, summary) {
        return Err(Refusal::Summary);
    }
    let counted = CountedList { list, kept: &kept };
    renew::fill_counted(&counted, s, summary);
    Ok(())
}
