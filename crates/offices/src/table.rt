// The rows of a table, as its three slices hold them: at each place an office, an id and a key. The slices are narrowed to the rows, so they have one length.
ghost use Rattle.std.specs.Prelude.{◌≡◌, ◌<◌, length, take};
ghost use Rattle.definitions.specs.Offices.{Holds, waiver_of, row_at, rows_in, rows_ascend};
ghost use Rattle.offices.specs.Narrowed.{NarrowedTo};
ghost use Rattle.offices.specs.Place.{row_found, office_times};

use crate::row::WaiverRow;
use crate::rows;

#[derive(Clone, Copy)]
pub struct WaiverTable<'a> {
    pub offices: &'a [u32],
    pub ids: &'a [u32],
    pub waived: &'a [u32],
    ghost as_many_ids: { length ids.now ≡ length offices.now },
    ghost as_many_keys: { length waived.now ≡ length offices.now },
}

impl<'a> WaiverTable<'a> {
    // The rows in the first places of the slices.
    pub fn first_rows(
        offices: &'a [u32],
        ids: &'a [u32],
        waived: &'a [u32],
        rows: usize,
    ) -> WaiverTable<'a>
        requires { Holds offices.now ids.now waived.now rows }
        ensures { NarrowedTo rows offices.now ids.now waived.now result.offices.now result.ids.now result.waived.now }
    {
        WaiverTable {
            offices: &offices[..rows],
            ids: &ids[..rows],
            waived: &waived[..rows],
        }
    }

    pub fn len(self) -> usize
        ensures { result ≡ length self.entry.offices.now }
    {
        self.offices.len()
    }

    // The row at a place.
    pub fn row(self, place: usize) -> WaiverRow
        requires { place < length self.offices.now }
        ensures { waiver_of result.office result.id result.key ≡ row_at self.entry.offices.now self.entry.ids.now self.entry.waived.now place }
    {
        WaiverRow {
            office: self.offices[place],
            id: self.ids[place],
            key: self.waived[place],
        }
    }

    // Each row comes before the next.
    pub fn ascends(self) -> bool
        ensures { result ≡ rows_ascend (rows_in self.entry.offices.now self.entry.ids.now self.entry.waived.now) }
    {
        for next in 1..self.len() {
            if !self.row(next - 1).comes_before(self.row(next)) {
                return false;
            }
        }
        true
    }

    // Where the row stands, or else the place that it would take: that of the first row that doesn't come before it.
    pub fn find(self, row: WaiverRow) -> Result<usize, usize>
        ensures { result ≡ row_found (waiver_of row.office row.id row.key) (rows_in self.entry.offices.now self.entry.ids.now self.entry.waived.now) }
    {
        for place in 0..self.len() {
            let other = self.row(place);
            if !other.comes_before(row) {
                return if other == row { Ok(place) } else { Err(place) };
            }
        }
        Err(self.len())
    }

    // How many rows the office has.
    pub fn count_of(self, office: u32) -> usize
        ensures { result ≡ office_times office self.entry.offices.now }
    {
        rows::count_of(self.offices, self.len(), office)
    }
}
