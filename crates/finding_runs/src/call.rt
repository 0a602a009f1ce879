// The findings as a call. A first run over the rules checks them and the table and bounds the number of findings; a second counts them, and is passed over
// where the bound is within the room; the third writes.
ghost use Rattle.std.specs.Prelude.{◌≡◌};
ghost use Rattle.definitions.specs.Answered.{as_found};
ghost use Rattle.definitions.specs.Calls.Findings.{findings, findings_ids, findings_keys};
ghost use Rattle.finding_runs.specs.Run.{OfFindings};

use crate::all_rules::run;
use crate::runs::{answer, begin, begin_next};
use definitions::answers::FindingCounts;
use definitions::refusal::Refusal;
use definitions::{Found, Rule};

// The answer by the name of its refusal. Six numbers refuse the findings, so one that is none of the first five is that of the office.
fn by_name(found: Found) -> Result<FindingCounts, Refusal>
    requires { OfFindings found }
    ensures { as_found result ≡ found }
{
    match found.refusal {
        0 => Ok(FindingCounts {
            live: found.live as usize,
            hidden: found.hidden as usize,
        }),
        1 => Err(Refusal::Settings),
        4 => Err(Refusal::List),
        12 => Err(Refusal::AnswerRoom(found.live)),
        13 => Err(Refusal::Rules),
        14 => Err(Refusal::Waivers),
        _ => Err(Refusal::Office),
    }
}

pub fn give_findings(
    m: u32,
    s: u32,
    keys: &[u32],
    bits: &[u32],
    n: usize,
    office: u32,
    rules: &[Rule],
    offices: &[u32],
    ids: &[u32],
    waived: &[u32],
    rows: usize,
    found_ids: &mut [u32],
    found_keys: &mut [u32],
) -> Result<FindingCounts, Refusal>
    ensures { (as_found result ≡ findings m s keys.now bits.now n office rules.now offices.now ids.now waived.now rows found_ids.old found_keys.old)
        × (found_ids.new ≡ findings_ids m s keys.now bits.now n office rules.now offices.now ids.now waived.now rows found_ids.old found_keys.old)
        × (found_keys.new ≡ findings_keys m s keys.now bits.now n office rules.now offices.now ids.now waived.now rows found_ids.old found_keys.old) }
{
    let checking = begin(
        m,
        s,
        keys,
        bits,
        n,
        office,
        offices,
        ids,
        waived,
        rows,
        found_ids.len(),
        found_keys.len(),
    );
    let checked = run(
        rules, keys, bits, ids, waived, found_ids, found_keys, checking,
    );
    let counting = begin_next(checked);
    let counted = run(
        rules, keys, bits, ids, waived, found_ids, found_keys, counting,
    );
    let writing = begin_next(counted);
    let written = run(
        rules, keys, bits, ids, waived, found_ids, found_keys, writing,
    );
    by_name(answer(written))
}
