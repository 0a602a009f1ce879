// The check of a table: 512 places in each slice, the rows in order, each of one of the two offices, and no office with more than its share.
ghost use Rattle.std.specs.Prelude.{◌≡◌, ◌↔◌, ◌&&◌, true, leb, eqb, is_some, IfSome};
ghost use Rattle.definitions.specs.Offices.{is_table};
ghost use Rattle.offices.specs.Narrowed.{NarrowedTo};

use crate::table::WaiverTable;

pub const PLACES: usize = 512;

pub const LIMIT: usize = 256;

// Each of the slices has the places of a table, and the rows are in them.
fn has_places(offices: usize, ids: usize, waived: usize, rows: usize) -> bool
    ensures { result ≡ eqb offices 512 && (eqb ids 512 && (eqb waived 512 && leb rows 512)) }
{
    offices == PLACES && ids == PLACES && waived == PLACES && rows <= PLACES
}

// The three slices hold a table: 14 is given where they do not. Every row is one of the two offices' exactly where their shares together are all rows.
pub fn is_table(offices: &[u32], ids: &[u32], waived: &[u32], rows: usize) -> bool
    ensures { result ≡ is_table offices.now ids.now waived.now rows }
{
    if !has_places(offices.len(), ids.len(), waived.len(), rows) {
        return false;
    }
    let table = WaiverTable::first_rows(offices, ids, waived, rows);
    if !table.ascends() {
        return false;
    }
    let zero = table.count_of(0);
    let one = table.count_of(1);
    if LIMIT < zero {
        return false;
    }
    if LIMIT < one {
        return false;
    }
    zero + one == rows
}

// The table of the three slices, if they hold one. Whether they do is asked of `is_table` alone.
#[tactic(auto, using(crate::proofs::Checked::table_holds))]
pub fn table<'a>(
    offices: &'a [u32],
    ids: &'a [u32],
    waived: &'a [u32],
    rows: usize,
) -> Option<WaiverTable<'a>>
    ensures exact { is_some result ≡ is_table offices.now ids.now waived.now rows }
    ensures narrowed { IfSome result (λ t. NarrowedTo rows offices.now ids.now waived.now t.offices.now t.ids.now t.waived.now) }
{
    if !is_table(offices, ids, waived, rows) {
        return None;
    }
    Some(WaiverTable::first_rows(offices, ids, waived, rows))
}
