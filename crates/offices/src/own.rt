// The rows of the asking office: they stand together in a good table, so they are one part of each slice.
ghost use Rattle.std.specs.Prelude.{◌≡◌, ◌≤◌};
ghost use Rattle.offices.specs.Own.{keys_in, own_of};

use crate::check;
use keys::Key;

// Where the office's rows begin, and how many they are.
#[derive(Clone, Copy)]
pub struct OwnRows {
    pub offset: usize,
    pub count: usize,
}

// Every row's key is valid, whichever office has it.
fn keys_are_valid(m: u32, waived: &[u32]) -> bool
    requires { m ≤ 10 }
    ensures { result ≡ keys_in m waived.now }
{
    for number in waived {
        let block = Key { number: *number };
        if !block.is_valid(m) {
            return false;
        }
    }
    true
}

// There are none to tell where the slices hold no table, or one with a bad key.
pub fn own_rows(
    m: u32,
    office: u32,
    offices: &[u32],
    ids: &[u32],
    waived: &[u32],
    rows: usize,
) -> Option<OwnRows>
    requires { m ≤ 10 }
    ensures { result ≡ own_of m office offices.now ids.now waived.now rows }
{
    let table = check::table(offices, ids, waived, rows)?;
    if !keys_are_valid(m, table.waived) {
        return None;
    }
    let count = table.count_of(office);
    if office == 0 {
        return Some(OwnRows { offset: 0, count });
    }
    Some(OwnRows {
        offset: table.count_of(0),
        count,
    })
}
