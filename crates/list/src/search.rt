// Where a key stands among keys that ascend (specification S5): binary searches.
ghost use Rattle.std.specs.Prelude.{◌≡◌, true, ◌≤◌, length};
ghost use Rattle.list.specs.Sorted.{Ascends, Sorted, Near};
ghost use Rattle.list.specs.Among.{keys_up_to, place_among};

// How many of the keys are at or before x.
fn up_to(keys: &[u32], x: u32) -> usize
    requires { Ascends keys.now (length keys.now) }
    ensures { result ≡ keys_up_to x keys.now }
{
    keys.partition_point(|&key| key <= x)
}

// The same count, from a place whose key is known to be at or before x: steps widen while they stay at or before x, and halve once one is past it.
// So the cost is the logarithm of the distance, not of the number of keys: a walk in key order asks for keys that lie close together. No search of the
// library's begins at a place.
pub fn up_to_from(keys: &[u32], from: usize, x: u32) -> usize
    requires { Ascends keys.now (length keys.now) × Near keys.now (length keys.now) from x }
    ensures { result ≡ keys_up_to x keys.now }
{
    let mut low = from + 1;
    let mut high = keys.len();
    let mut width = 0;
    while low < high {
        let step = usize::min(width, (high - low) / 2);
        let middle = low + step;
        let key = keys[middle];
        if x < key {
            high = middle;
        } else {
            low = middle + 1;
            width = step * 2 + 1;
        }
    }
    low
}

// The place of the last key that is at or before x.
pub fn place(keys: &[u32], x: u32) -> usize
    requires { Sorted keys.now (length keys.now) x }
    ensures { result ≡ place_among x keys.now }
{
    up_to(keys, x) - 1
}

// The same, looked for from a place on. A walk in key order asks most often for the key that stands there, or for the very next one: these are looked at
// first.
pub fn place_from(keys: &[u32], from: usize, x: u32) -> usize
    requires { Sorted keys.now (length keys.now) x × Near keys.now (length keys.now) from x }
    ensures { result ≡ place_among x keys.now }
{
    let own = keys[from];
    if own == x {
        return from;
    }
    let next = from + 1;
    if next < keys.len() {
        let key = keys[next];
        if key == x {
            return next;
        }
    }
    up_to_from(keys, from, x) - 1
}
