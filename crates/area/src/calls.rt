// The call that gives an area (specification S8.10). It refuses by its table, and requires nothing.
// Its parameters are those of the C function, one by one.
ghost use Rattle.std.specs.Prelude.{◌≡◌, IfOk};
ghost use Rattle.definitions.specs.Refused.{refusal_told};
ghost use Rattle.definitions.specs.Answered.{as_measured};
ghost use Rattle.definitions.specs.Calls.Area.{area_refusal, area as area_measured};
ghost use Rattle.list.specs.Taken.{Taken};

use crate::measure::area_in;
use definitions::Window;
use definitions::refusal::Refusal;
use list::accepted_list::Accepted;
use walk::bounds::is_window;

// The list that is asked. Refusals 1, 4, 18, 6 and 7.
fn accept_area<'a>(
    m: u32,
    s: u32,
    keys: &'a [u32],
    bits: &'a [u32],
    n: usize,
    summary: &[u32],
    window: Window,
    feature: u32,
) -> Result<Accepted<'a>, Refusal>
    ensures told { refusal_told result ≡ area_refusal m s keys.now bits.now n summary.now window feature }
    ensures list { IfOk result (Taken m keys.now bits.now n) }
{
    let list = summary::accept(m, s, keys, bits, n, summary)?;
    if !is_window(m, window) {
        return Err(Refusal::Window);
    }
    if s <= feature {
        return Err(Refusal::Feature);
    }
    Ok(list)
}

// How many pixels of the window have the feature?
pub fn area(
    m: u32,
    s: u32,
    keys: &[u32],
    bits: &[u32],
    n: usize,
    summary: &[u32],
    window: Window,
    feature: u32,
) -> Result<u32, Refusal>
    ensures { as_measured result ≡ area_measured m s keys.now bits.now n summary.now window feature }
{
    let list = accept_area(m, s, keys, bits, n, summary, window, feature)?;
    Ok(area_in(&list, s, summary, window, feature))
}
