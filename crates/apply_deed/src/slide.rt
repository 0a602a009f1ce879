// The records of a block that stays as it is are moved behind, all at once. Of a block's list only the first record has the block's own key.
ghost use Rattle.std.specs.Prelude.{◌≡◌, true};
ghost use Rattle.apply_deed.specs.Slide.{StartAt, StartAsked, SlideAsked, Slid, Stays};

use deeds::meeting::Meeting;
use list::search;

// Where records are read, and where what becomes of them is written. Growing, which goes from the end, reads and writes before these places.
#[derive(Clone, Copy)]
pub struct Places {
    pub read: usize,
    pub write: usize,
}

// The last place before `read` that has a key. It is searched for: the keys there ascend, and a block may have many records.
fn block_start(key: u32, read: usize, keys: &[u32]) -> usize
    requires { StartAsked key read keys.now }
    ensures { StartAt key read keys.now result }
{
    search::place(&keys[..read], key)
}

// The records from there up to `read` go before `write`.
pub fn slide(key: u32, read: usize, write: usize, keys: &mut [u32], bits: &mut [u32]) -> Places
    requires { SlideAsked key read write keys.old bits.old }
    ensures { Slid key read write keys.old bits.old keys.new bits.new result.read result.write }
{
    let start = block_start(key, read, keys);
    let count = read - start;
    let to = write - count;
    slices::shift(keys, start, count, to);
    slices::shift(bits, start, count, to);
    Places {
        read: start,
        write: to,
    }
}

// Where no record before `read` has to move, or the step does not touch a block, the block stays as it is.
pub fn stays(meeting: Meeting, read: usize, write: usize) -> bool
    ensures { result ≡ true → Stays meeting read write }
{
    read == write || matches!(meeting, Meeting::Apart)
}
