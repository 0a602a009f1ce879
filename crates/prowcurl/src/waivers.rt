// The table of waivers that two offices share, for C: a row more and a row less, each with the promise of the function that does the work.
ghost use Rattle.std.specs.Prelude.{◌≡◌};
ghost use Rattle.definitions.specs.Calls.AddWaiver.{add_waiver, add_offices, add_ids, add_keys};
ghost use Rattle.definitions.specs.Calls.RemoveWaiver.{remove_waiver, remove_offices, remove_ids, remove_keys};

use definitions::Counted;
use offices::calls;

#[unsafe(no_mangle)]
pub extern "C" fn hlq_add_waiver(
    m: u32,
    office: u32,
    offices: &mut [u32],
    ids: &mut [u32],
    waived: &mut [u32],
    rows: usize,
    id: u32,
    key: u32,
) -> Counted
    ensures { (result ≡ add_waiver m office offices.old ids.old waived.old rows id key)
        × (offices.new ≡ add_offices m office offices.old ids.old waived.old rows id key)
        × (ids.new ≡ add_ids m office offices.old ids.old waived.old rows id key)
        × (waived.new ≡ add_keys m office offices.old ids.old waived.old rows id key) }
{
    calls::add_waiver(m, office, offices, ids, waived, rows, id, key).into()
}

#[unsafe(no_mangle)]
pub extern "C" fn hlq_remove_waiver(
    m: u32,
    office: u32,
    offices: &mut [u32],
    ids: &mut [u32],
    waived: &mut [u32],
    rows: usize,
    id: u32,
    key: u32,
) -> Counted
    ensures { (result ≡ remove_waiver m office offices.old ids.old waived.old rows id key)
        × (offices.new ≡ remove_offices m office offices.old ids.old waived.old rows id key)
        × (ids.new ≡ remove_ids m office offices.old ids.old waived.old rows id key)
        × (waived.new ≡ remove_keys m office offices.old ids.old waived.old rows id key) }
{
    calls::remove_waiver(m, office, offices, ids, waived, rows, id, key).into()
}
