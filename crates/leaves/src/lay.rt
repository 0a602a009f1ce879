// The second pass over a delivery: it writes the records of its list, by the frame of build. A block writes the records of its quadrants when it
// knows that they are not alike, so what was delivered in parts is merged, and nothing is written past the last record.
ghost use Rattle.std.specs.Prelude.{◌≡◌, true, false, ◌^◌, ◌≤◌, ◌<◌, length, get_or};
ghost use Rattle.keys.specs.Key.{slot_limit, all_keys};
ghost use Rattle.definitions.specs.List.{list_of_picture, keys_of, values_of};
ghost use Rattle.definitions.specs.Read.{room, paired};
ghost use Rattle.definitions.specs.Leaves.{are_leaves, picture_of_leaves};
ghost use Rattle.definitions.specs.Buffer.{over};
ghost use Rattle.definitions.specs.Refusal.{bad_settings};
ghost use Rattle.leaves.specs.Delivered.{quad_span, leaf_lain, LayAsked, BlockLaid};

use build::write::{Below, write_four};
use keys::span::{KeySpan, child};
use keys::{Key, power, span};

// What is written below a block, and the place after its leaves.
#[derive(Clone, Copy)]
pub struct Lain {
    pub below: Below,
    pub end: usize,
}

// A block that is the next leaf has no records below it.
fn lay_leaf(leaf_features: &[u32], at: usize, place: usize) -> Lain
    requires { (at < length leaf_features.now) × (get_or leaf_features.now at 0 < slot_limit) × (place ≤ all_keys) }
    ensures { result ≡ leaf_lain leaf_features.now at place }
{
    let bits = power::power_of_two(leaf_features[at]);
    let next = place + 1;
    let below = Below { bits, next };
    let end = at + 1;
    Lain { below, end }
}

// A block of 2 by 2 pixels, with no recursive call.
fn lay_quad(
    leaf_keys: &[u32],
    leaf_features: &[u32],
    key: u32,
    at: usize,
    place: usize,
    keys: &mut [u32],
    bits: &mut [u32],
) -> Lain
    requires { LayAsked leaf_keys.now leaf_features.now (quad_span key) at place keys.old bits.old }
    ensures { BlockLaid leaf_keys.now leaf_features.now (quad_span key) at place keys.old bits.old keys.new bits.new result }
{
    if leaf_keys[at] == key {
        return lay_leaf(leaf_features, at, place);
    }
    let nw = lay_leaf(leaf_features, at, place + 1);
    let ne = lay_leaf(leaf_features, nw.end, nw.below.next);
    let sw = lay_leaf(leaf_features, ne.end, ne.below.next);
    let se = lay_leaf(leaf_features, sw.end, sw.below.next);
    let below = write_four(
        key, 1, place, nw.below, ne.below, sw.below, se.below, keys, bits,
    );
    let end = se.end;
    Lain { below, end }
}

// The records below a block, and not its own: only its parent knows whether it is listed.
fn lay_below(
    leaf_keys: &[u32],
    leaf_features: &[u32],
    span: KeySpan,
    at: usize,
    place: usize,
    keys: &mut [u32],
    bits: &mut [u32],
) -> Lain
    requires { LayAsked leaf_keys.now leaf_features.now span at place keys.old bits.old }
    ensures { BlockLaid leaf_keys.now leaf_features.now span at place keys.old bits.old keys.new bits.new result }
{
    if span.step == 5 {
        return lay_quad(leaf_keys, leaf_features, span.key, at, place, keys, bits);
    }
    if leaf_keys[at] == span.key {
        return lay_leaf(leaf_features, at, place);
    }
    let next = place + 1;
    let nw_span = child(span, 1);
    let nw = lay_below(leaf_keys, leaf_features, nw_span, at, next, keys, bits);
    let next = nw.below.next;
    let ne_span = child(span, 2);
    let ne = lay_below(leaf_keys, leaf_features, ne_span, nw.end, next, keys, bits);
    let next = ne.below.next;
    let sw_span = child(span, 3);
    let sw = lay_below(leaf_keys, leaf_features, sw_span, ne.end, next, keys, bits);
    let next = sw.below.next;
    let se_span = child(span, 4);
    let se = lay_below(leaf_keys, leaf_features, se_span, sw.end, next, keys, bits);
    let step = span.step / 5;
    let below = write_four(
        span.key, step, place, nw.below, ne.below, sw.below, se.below, keys, bits,
    );
    let end = se.end;
    Lain { below, end }
}

// The list of a delivery, from place 0 on.
pub fn lay_list(
    m: u32,
    s: u32,
    leaf_keys: &[u32],
    leaf_features: &[u32],
    keys: &mut [u32],
    bits: &mut [u32],
)
    requires { (bad_settings m s ≡ false) × (length leaf_features.now ≡ length leaf_keys.now) × (are_leaves m s leaf_keys.now leaf_features.now ≡ true)
        × (length (list_of_picture m (picture_of_leaves m (paired leaf_keys.now leaf_features.now))) ≤ room keys.old bits.old) }
    ensures keys_after { keys.new ≡ over (keys_of (list_of_picture m (picture_of_leaves m (paired leaf_keys.now leaf_features.now)))) keys.old }
    ensures bits_after { bits.new ≡ over (values_of (list_of_picture m (picture_of_leaves m (paired leaf_keys.now leaf_features.now)))) bits.old }
{
    let root = lay_below(leaf_keys, leaf_features, span::root(m), 0, 0, keys, bits);
    let below = root.below;
    keys[0] = Key::ROOT;
    bits[0] = below.bits;
}
