// One of the slices of a table: how many rows an office has, a place made and a place given up. C lends the three of a table one by one, with places past
// the rows that stay as they are, so the number of rows goes beside each.
ghost use Rattle.std.specs.Prelude.{◌≡◌, ◌≤◌, ◌<◌, length, take};
ghost use Rattle.offices.specs.Place.{opened, gap_closed, office_times};

// How many of the first rows the office has.
pub fn count_of(offices: &[u32], rows: usize, office: u32) -> usize
    requires { rows ≤ length offices.now }
    ensures { result ≡ office_times office (take rows offices.now) }
{
    let mut count = 0;
    for other in &offices[..rows] {
        if *other == office {
            count += 1;
        }
    }
    count
}

// The later rows' numbers go one place on, and the new one stands at the place.
pub fn open(slice: &mut [u32], rows: usize, place: usize, number: u32)
    requires { (place ≤ rows) × (rows < length slice.old) }
    ensures { slice.new ≡ opened rows place number slice.old }
{
    let later = rows - place;
    slices::shift(slice, place, later, place + 1);
    slice[place] = number;
}

// The later rows' numbers come one place back, and the last place becomes zero.
pub fn close(slice: &mut [u32], rows: usize, place: usize)
    requires { (place < rows) × (rows ≤ length slice.old) }
    ensures { slice.new ≡ gap_closed rows place slice.old }
{
    let next = place + 1;
    slices::shift(slice, next, rows - next, place);
    slice[rows - 1] = 0;
}
