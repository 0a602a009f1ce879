// The keys of a block: its own and those below it, one after the other. Who goes from block to quadrant and asks for no row and no column carries this.
ghost use Rattle.std.specs.Prelude.{◌≡◌, ◌+◌, ◌≤◌, ◌^◌};
ghost use Rattle.keys.specs.Key.{all_keys};
ghost use Rattle.keys.specs.Span.{root_span, child_span};

use crate::{Key, power};

// The first of the keys, which is the block's own, and how many they are.
#[derive(Clone, Copy, PartialEq, Eq, Debug)]
pub struct KeySpan {
    pub key: u32,
    pub step: u32,
}

// All keys of a map.
pub fn root(m: u32) -> KeySpan
    requires { m ≤ 10 }
    ensures { result ≡ root_span m }
{
    KeySpan {
        key: Key::ROOT,
        step: power::power_of_five(m),
    }
}

// The keys of the quadrant of a digit: 1 NW, 2 NE, 3 SW, 4 SE.
pub fn child(span: KeySpan, digit: u32) -> KeySpan
    requires { (span.key + span.step ≤ all_keys) × (digit ≤ 4) }
    ensures { result ≡ child_span span digit }
{
    let step = span.step / 5;
    let key = Key::child(span.key, step, digit);
    KeySpan { key, step }
}
