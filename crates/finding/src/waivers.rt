// Covering: whether a rule's waivers, whose keys ascend, cover a block. A merge keeps the furthest end of the waivers passed, and of one block the key of the
// first pixel that no waiver so far has: it has come past the block's end exactly when every pixel is waived.
ghost use Rattle.std.specs.Prelude.{◌≡◌, true, ◌≤◌, length};
ghost use Rattle.keys.specs.Key.{valid_key, all_keys};
ghost use Rattle.finding.specs.Covering.{end_of, first_pixel, next_over, further, start_of, Waived, WaiversPassed, Settles};

use keys::zeros;

// The furthest end of the waivers passed, and the first pixel of the block that is left.
#[derive(Clone, Copy)]
pub struct Covering {
    pub furthest: u32,
    pub next: u32,
}

// How far the waivers are passed, their furthest end, and whether they cover the block: three answers, each told whatever the others are.
#[derive(Clone, Copy)]
pub struct Settled {
    pub passed: usize,
    pub furthest: u32,
    pub hidden: bool,
}

// The key after a block's last.
fn end_of(m: u32, key: u32) -> u32
    requires { (m ≤ 10) × (valid_key m key ≡ true) }
    ensures { result ≡ end_of m key }
{
    key + zeros::keys_in(m, key)
}

// The key of a block's first pixel: every digit that is 0 made 1.
fn first_pixel(m: u32, key: u32) -> u32
    requires { (m ≤ 10) × (key ≤ all_keys) }
    ensures { result ≡ first_pixel m key }
{
    key + (zeros::keys_in(m, key) - 1) / 4
}

// Where a block begins: past its end if an earlier waiver reaches that, and else at its first pixel. The map's resolution is for the contract alone, so that
// the block's height is not worked out again.
fn start(m: u32, key: u32, end: u32, furthest: u32) -> u32
    requires { (valid_key m key ≡ true) × (end ≡ end_of m key) }
    ensures { result ≡ start_of m furthest key }
{
    if end <= furthest {
        return furthest;
    }
    key + (end - key - 1) / 4
}

// One waiver more: where it has the pixel that is left, the first one past it is left.
#[tactic(auto, using(crate::proofs::OneWaiver::over_early))]
fn cover(m: u32, waiver: u32, at: Covering) -> Covering
    requires { (m ≤ 10) × (valid_key m waiver ≡ true) }
    ensures { (result.furthest ≡ further at.furthest (end_of m waiver)) × (result.next ≡ next_over m at.next waiver) }
{
    let before = at.furthest;
    let next = at.next;
    let end = end_of(m, waiver);
    let furthest = before.max(end);
    if next < waiver {
        return Covering { furthest, next };
    }
    if end <= next {
        return Covering { furthest, next };
    }
    Covering {
        furthest,
        next: first_pixel(m, end),
    }
}

// One block: passes the waivers that begin before its end.
fn merge(m: u32, waived: &[u32], key: u32, from: usize, furthest: u32) -> Settled
    requires { (m ≤ 10) × (valid_key m key ≡ true) × Waived m 0 waived.now × WaiversPassed m waived.now from furthest key }
    ensures { Settles m waived.now key result }
{
    let end = end_of(m, key);
    let mut at = Covering {
        furthest,
        next: start(m, key, end, furthest),
    };
    let mut place = from;
    for waiver in &waived[from..] {
        if end <= *waiver {
            break;
        }
        at = cover(m, *waiver, at);
        place += 1;
    }
    let next = at.next;
    let far = at.furthest;
    Settled {
        passed: place,
        furthest: far,
        hidden: end <= next,
    }
}

// No waiver is left, and none that is passed reaches the block.
fn are_past(waived: &[u32], key: u32, from: usize, furthest: u32) -> bool
    ensures { result ≡ true → (length waived.now ≤ from) × (furthest ≤ key) }
{
    waived.len() <= from && furthest <= key
}

// One block: where the waivers are past it nothing is worked out.
pub fn settle(m: u32, waived: &[u32], key: u32, from: usize, furthest: u32) -> Settled
    requires { (m ≤ 10) × (valid_key m key ≡ true) × Waived m 0 waived.now × WaiversPassed m waived.now from furthest key }
    ensures { Settles m waived.now key result }
{
    if are_past(waived, key, from, furthest) {
        return Settled {
            passed: from,
            furthest,
            hidden: false,
        };
    }
    merge(m, waived, key, from, furthest)
}
