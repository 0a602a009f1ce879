// Findings for C: the findings of the rules that the asking office's waivers do not cover.
ghost use Rattle.std.specs.Prelude.{◌≡◌};
ghost use Rattle.definitions.specs.Calls.Findings.{findings as findings_answer, findings_ids, findings_keys};

use definitions::{Found, Rule};
use finding_runs::call;

#[unsafe(no_mangle)]
pub extern "C" fn hlq_findings(
    m: u32,
    s: u32,
    keys: &[u32],
    bits: &[u32],
    n: usize,
    office: u32,
    rules: &[Rule],
    offices: &[u32],
    ids: &[u32],
    waived: &[u32],
    rows: usize,
    found_ids: &mut [u32],
    found_keys: &mut [u32],
) -> Found
    ensures { (result ≡ findings_answer m s keys.now bits.now n office rules.now offices.now ids.now waived.now rows found_ids.old found_keys.old)
        × (found_ids.new ≡ findings_ids m s keys.now bits.now n office rules.now offices.now ids.now waived.now rows found_ids.old found_keys.old)
        × (found_keys.new ≡ findings_keys m s keys.now bits.now n office rules.now offices.now ids.now waived.now rows found_ids.old found_keys.old) }
{
    call::give_findings(
        m, s, keys, bits, n, office, rules, offices, ids, waived, rows, found_ids, found_keys,
    )
    .into()
}
