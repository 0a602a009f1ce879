// The first pass over a delivery: it holds the leaves against the blocks that they must be, and counts the records of the list that they give.
// Nothing is written.
ghost use Rattle.std.specs.Prelude.{◌≡◌, false, cond, ◌<◌, length, get_or, Some, None};
ghost use Rattle.keys.specs.Key.{slot_limit};
ghost use Rattle.definitions.specs.List.{list_of_picture};
ghost use Rattle.definitions.specs.Read.{paired};
ghost use Rattle.definitions.specs.Leaves.{are_leaves, picture_of_leaves};
ghost use Rattle.definitions.specs.Refusal.{bad_settings};
ghost use Rattle.leaves.specs.Delivered.{pixel_span, quad_span, leaf_pass, LeavesAsked, LeavesSought};

use crate::features;
use build::count;
use build::count::Tally;
use keys::span::{KeySpan, child};
use keys::{power, span};

// The bits of a block and how many records its list has, and the place after its leaves.
#[derive(Clone, Copy)]
pub struct Pass {
    pub tally: Tally,
    pub next: usize,
}

// The next leaf is the block.
fn pass_leaf(features: &[u32], at: usize) -> Pass
    requires { (at < length features.now) × (get_or features.now at 0 < slot_limit) }
    ensures { result ≡ leaf_pass features.now at }
{
    let bits = power::power_of_two(features[at]);
    let tally = Tally { bits, count: 1 };
    let next = at + 1;
    Pass { tally, next }
}

// A pixel: the next leaf is the pixel.
fn pass_pixel(keys: &[u32], features: &[u32], key: u32, at: usize) -> Option<Pass>
    requires { LeavesAsked keys.now features.now (pixel_span key) }
    ensures { LeavesSought keys.now features.now (pixel_span key) at result }
{
    if keys.len() <= at {
        return None;
    }
    if keys[at] != key {
        return None;
    }
    Some(pass_leaf(features, at))
}

// A block of 2 by 2 pixels, with no recursive call: most blocks of a delivery in parts are of this size.
fn pass_quad(keys: &[u32], features: &[u32], key: u32, at: usize) -> Option<Pass>
    requires { LeavesAsked keys.now features.now (quad_span key) }
    ensures { LeavesSought keys.now features.now (quad_span key) at result }
{
    if keys.len() <= at {
        return None;
    }
    if keys[at] == key {
        return Some(pass_leaf(features, at));
    }
    let nw = pass_pixel(keys, features, key + 1, at)?;
    let ne = pass_pixel(keys, features, key + 2, nw.next)?;
    let sw = pass_pixel(keys, features, key + 3, ne.next)?;
    let se = pass_pixel(keys, features, key + 4, sw.next)?;
    let tally = count::joined(nw.tally, ne.tally, sw.tally, se.tally);
    let next = se.next;
    Some(Pass { tally, next })
}

// A block: the next leaf is the block itself, or its quadrants' leaves follow one after the other. A leaf that is missing, or another in its place, ends
// the pass.
fn pass_block(keys: &[u32], features: &[u32], span: KeySpan, at: usize) -> Option<Pass>
    requires { LeavesAsked keys.now features.now span }
    ensures { LeavesSought keys.now features.now span at result }
{
    if span.step == 5 {
        return pass_quad(keys, features, span.key, at);
    }
    if keys.len() <= at {
        return None;
    }
    if keys[at] == span.key {
        return Some(pass_leaf(features, at));
    }
    if span.step == 1 {
        return None;
    }
    let nw = pass_block(keys, features, child(span, 1), at)?;
    let ne = pass_block(keys, features, child(span, 2), nw.next)?;
    let sw = pass_block(keys, features, child(span, 3), ne.next)?;
    let se = pass_block(keys, features, child(span, 4), sw.next)?;
    let tally = count::joined(nw.tally, ne.tally, sw.tally, se.tally);
    let next = se.next;
    Some(Pass { tally, next })
}

// How many records the list of a delivery has, where the leaves are one.
pub fn records_of(m: u32, s: u32, keys: &[u32], features: &[u32]) -> Option<usize>
    requires { (bad_settings m s ≡ false) × (length features.now ≡ length keys.now) }
    ensures { result ≡ cond (are_leaves m s keys.now features.now)
        (Some (length (list_of_picture m (picture_of_leaves m (paired keys.now features.now)))))
        None }
{
    if features::has_bad_feature(s, features) {
        return None;
    }
    let whole = pass_block(keys, features, span::root(m), 0)?;
    if whole.next == keys.len() {
        return Some(whole.tally.count);
    }
    None
}
