// A cursor into each of two lists: both are gone down together, and where one has a leaf it waits while the other goes on below.
ghost use Rattle.std.specs.Prelude.{◌≡◌, ◌<◌, length, None};
ghost use Rattle.combine.specs.Combining.{Entered, BothEntered, both_roots, both_of, passed_to};

use list::check;

// The bits of the leaf that a block is or lies in, where it is no node; and the place of what follows.
#[derive(Clone, Copy)]
pub struct Cursor {
    pub leaf: Option<u32>,
    pub at: usize,
}

// The cursors of both lists at one block.
#[derive(Clone, Copy)]
pub struct Pair {
    pub first: Cursor,
    pub second: Cursor,
}

// Both before the root's record.
pub fn at_roots() -> Pair
    ensures { result ≡ both_roots }
{
    let root = Cursor { leaf: None, at: 0 };
    Pair {
        first: root,
        second: root,
    }
}

// Reads the record of a block, if it has one: inside a leaf there is none to read.
fn enter(bits: &[u32], cursor: Cursor) -> Cursor
    requires { cursor.leaf ≡ None → cursor.at < length bits.now }
    ensures { Entered bits.now cursor result }
{
    if let Some(_leaf) = cursor.leaf {
        return cursor;
    }
    let own = bits[cursor.at];
    let next = cursor.at + 1;
    if check::has_one_slot(own) {
        return Cursor {
            leaf: Some(own),
            at: next,
        };
    }
    Cursor {
        leaf: None,
        at: next,
    }
}

// Reads the records of a block in both lists.
pub fn enter_both(bits1: &[u32], bits2: &[u32], at: Pair) -> Pair
    requires { (at.first.leaf ≡ None → at.first.at < length bits1.now) × (at.second.leaf ≡ None → at.second.at < length bits2.now) }
    ensures { BothEntered bits1.now bits2.now at result }
{
    let first = enter(bits1, at.first);
    let second = enter(bits2, at.second);
    Pair { first, second }
}

// The bits of both leaves, where the block is or lies in a leaf in both lists.
pub fn both_leaves(here: Pair) -> Option<(u32, u32)>
    ensures { result ≡ both_of here.first.leaf here.second.leaf }
{
    let first = here.first.leaf?;
    let second = here.second.leaf?;
    Some((first, second))
}

// Past a block: each is inside the leaf that it was in, and at the place to which the block was read.
pub fn passed(at: Pair, end: Pair) -> Pair
    ensures { result ≡ passed_to at end }
{
    let first = Cursor {
        leaf: at.first.leaf,
        at: end.first.at,
    };
    let second = Cursor {
        leaf: at.second.leaf,
        at: end.second.at,
    };
    Pair { first, second }
}
