// Survey: a raster becomes its list and its summary (specification S4.15). The summary is counted from the list that was just written.
#![tactic(auto)]

ghost use Rattle.std.specs.Prelude.{◌≡◌, [], ◌∷◌};
ghost use Rattle.definitions.specs.Answered.{as_counted};
ghost use Rattle.definitions.specs.Area.{bad_summary_length};
ghost use Rattle.definitions.specs.Refusal.{◌gives◌, first, bad_settings, bad_length, bad_pixel};
ghost use Rattle.definitions.specs.Refused.{refusal_told};
ghost use Rattle.definitions.specs.Calls.Survey.{survey as surveyed, survey_keys, survey_bits, survey_summary};

use build;
use definitions::refusal::Refusal;
use list::acceptance;
use summary::{blocks, renew};

// What raster and summary decide before the list is made: refusals 1, 2, 3 and 18.
fn check_raster(m: u32, s: u32, raster: &[u8], summary: &[u32]) -> Result<(), Refusal>
    ensures { refusal_told result ≡ first (bad_settings m s gives 1 ∷ bad_length m raster.now gives 2 ∷ bad_pixel s raster.now gives 3
        ∷ bad_summary_length m s summary.now gives 18 ∷ []) }
{
    build::check_raster(m, s, raster)?;
    if !blocks::have_length(m, s, summary) {
        return Err(Refusal::Summary);
    }
    Ok(())
}

// How many records the list of a raster has, once it and the summary are written, or the first refusal that applies. Too little room is refused before
// anything is written.
pub fn survey(
    m: u32,
    s: u32,
    raster: &[u8],
    keys: &mut [u32],
    bits: &mut [u32],
    summary: &mut [u32],
) -> Result<usize, Refusal>
    ensures value { as_counted result ≡ surveyed m s raster.now keys.old bits.old summary.old }
    ensures keys_after { keys.new ≡ survey_keys m s raster.now keys.old bits.old summary.old }
    ensures bits_after { bits.new ≡ survey_bits m s raster.now keys.old bits.old summary.old }
    ensures summary_after { summary.new ≡ survey_summary m s raster.now keys.old bits.old summary.old }
{
    check_raster(m, s, raster, summary)?;
    let n = build::build_checked(m, s, raster, keys, bits)?;
    let list = acceptance::taken(m, keys, bits, n);
    renew::fill(&list, s, summary);
    Ok(n)
}
