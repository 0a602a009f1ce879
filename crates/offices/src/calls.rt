// Adding and removing a waiver: an office's row more or less in the table. Both check the table, and look at no other row's key.
ghost use Rattle.std.specs.Prelude.{◌≡◌, IfOk};
ghost use Rattle.definitions.specs.Answered.{as_counted};
ghost use Rattle.definitions.specs.Offices.{waiver_of, table_of};
ghost use Rattle.definitions.specs.Refused.{refusal_told};
ghost use Rattle.definitions.specs.Calls.AddWaiver.{add_refusal, add_waiver, add_offices, add_ids, add_keys};
ghost use Rattle.definitions.specs.Calls.RemoveWaiver.{remove_refusal, remove_waiver, remove_offices, remove_ids, remove_keys};
ghost use Rattle.offices.specs.Narrowed.{NarrowedTo};
ghost use Rattle.offices.specs.Place.{row_place};
ghost use Rattle.offices.specs.Refusal.{table_refusal, decided_on};

use crate::row::WaiverRow;
use crate::table::WaiverTable;
use crate::{check, rows};
use definitions::refusal::Refusal;
use keys::Key;

// The table, unless one of the refusals comes that both calls begin with: 21, 1, 14 and 8.
#[tactic(auto, using(crate::proofs::Decided::gives_21))]
fn table_for<'a>(
    m: u32,
    offices: &'a [u32],
    ids: &'a [u32],
    waived: &'a [u32],
    rows: usize,
    row: WaiverRow,
) -> Result<WaiverTable<'a>, Refusal>
    ensures told { refusal_told result ≡ table_refusal m row.office offices.now ids.now waived.now rows row.key }
    ensures narrowed { IfOk result (λ t. NarrowedTo rows offices.now ids.now waived.now t.offices.now t.ids.now t.waived.now) }
{
    if 1 < row.office {
        return Err(Refusal::Office);
    }
    if Key::DEEPEST_LEVEL < m {
        return Err(Refusal::Settings);
    }
    let Some(table) = check::table(offices, ids, waived, rows) else {
        return Err(Refusal::Waivers);
    };
    let block = Key { number: row.key };
    if !block.is_valid(m) {
        return Err(Refusal::Key);
    }
    Ok(table)
}

// The place where the row may be added: 22 comes before 12. With 12 the rows that the office would have are told.
fn to_add(
    m: u32,
    offices: &[u32],
    ids: &[u32],
    waived: &[u32],
    rows: usize,
    row: WaiverRow,
) -> Result<usize, Refusal>
    ensures { as_counted result
        ≡ decided_on (add_refusal m row.office offices.now ids.now waived.now rows row.id row.key)
        (row_place (waiver_of row.office row.id row.key) (table_of offices.now ids.now waived.now rows)) }
{
    let table = table_for(m, offices, ids, waived, rows, row)?;
    let Err(place) = table.find(row) else {
        return Err(Refusal::Row);
    };
    if check::LIMIT <= table.count_of(row.office) {
        return Err(Refusal::AnswerRoom(check::LIMIT as u64 + 1));
    }
    Ok(place)
}

// The place of the row that may be removed.
fn to_remove(
    m: u32,
    offices: &[u32],
    ids: &[u32],
    waived: &[u32],
    rows: usize,
    row: WaiverRow,
) -> Result<usize, Refusal>
    ensures { as_counted result
        ≡ decided_on (remove_refusal m row.office offices.now ids.now waived.now rows row.id row.key)
        (row_place (waiver_of row.office row.id row.key) (table_of offices.now ids.now waived.now rows)) }
{
    let table = table_for(m, offices, ids, waived, rows, row)?;
    match table.find(row) {
        Ok(place) => Ok(place),
        Err(_) => Err(Refusal::Row),
    }
}

// The row is put at its place, and the later ones move on; the rows afterwards are told. The C interface lends each slice by itself.
pub fn add_waiver(
    m: u32,
    office: u32,
    offices: &mut [u32],
    ids: &mut [u32],
    waived: &mut [u32],
    rows: usize,
    id: u32,
    key: u32,
) -> Result<usize, Refusal>
    ensures { (as_counted result ≡ add_waiver m office offices.old ids.old waived.old rows id key)
        × (offices.new ≡ add_offices m office offices.old ids.old waived.old rows id key)
        × (ids.new ≡ add_ids m office offices.old ids.old waived.old rows id key)
        × (waived.new ≡ add_keys m office offices.old ids.old waived.old rows id key) }
{
    let row = WaiverRow { office, id, key };
    let place = to_add(m, offices, ids, waived, rows, row)?;
    rows::open(offices, rows, place, office);
    rows::open(ids, rows, place, id);
    rows::open(waived, rows, place, key);
    Ok(rows + 1)
}

// The row is taken out, the later ones move back, and the place given up is zero in all three slices; the rows afterwards are told.
pub fn remove_waiver(
    m: u32,
    office: u32,
    offices: &mut [u32],
    ids: &mut [u32],
    waived: &mut [u32],
    rows: usize,
    id: u32,
    key: u32,
) -> Result<usize, Refusal>
    ensures { (as_counted result ≡ remove_waiver m office offices.old ids.old waived.old rows id key)
        × (offices.new ≡ remove_offices m office offices.old ids.old waived.old rows id key)
        × (ids.new ≡ remove_ids m office offices.old ids.old waived.old rows id key)
        × (waived.new ≡ remove_keys m office offices.old ids.old waived.old rows id key) }
{
    let row = WaiverRow { office, id, key };
    let place = to_remove(m, offices, ids, waived, rows, row)?;
    rows::close(offices, rows, place);
    rows::close(ids, rows, place);
    rows::close(waived, rows, place);
    Ok(rows - 1)
}
