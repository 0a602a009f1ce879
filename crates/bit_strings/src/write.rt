// Write bit strings: a list of two features becomes its pair of bit strings. Refusals 1, 23, 4, 12.
ghost use Rattle.std.specs.Prelude.{◌≡◌, IfOk};
ghost use Rattle.definitions.specs.Calls.WriteBitStrings.{write_strings, written_nodes, written_leaves};
ghost use Rattle.definitions.specs.Refused.{refusal_told};
ghost use Rattle.bit_strings.specs.Strings.{early_refusal};
ghost use Rattle.list.specs.Taken.{Taken};

use crate::pack;
use definitions::Strings;
use definitions::refusal::Refusal;
use list::accepted_list::Accepted;
use list::settings;

// The list of two features that is asked for: refusals 1, 23 and 4.
fn asked<'a>(
    m: u32,
    s: u32,
    keys: &'a [u32],
    bits: &'a [u32],
    n: usize,
) -> Result<Accepted<'a>, Refusal>
    ensures told { refusal_told result ≡ early_refusal m s keys.now bits.now n }
    ensures list { IfOk result (Taken m keys.now bits.now n) }
{
    if settings::are_bad(m, s) {
        return Err(Refusal::Settings);
    }
    if s != 2 {
        return Err(Refusal::BitStrings);
    }
    list::accept(m, s, keys, bits, n)
}

// Of n nodes a quarter, rounded down, are inner: the others are leaves. Nothing is written before all is accepted. C is told two numbers, whether they were
// written or are needed.
pub fn write_bit_strings(
    m: u32,
    s: u32,
    keys: &[u32],
    bits: &[u32],
    n: usize,
    nodes: &mut [u8],
    leaves: &mut [u8],
) -> Strings
    ensures value { result ≡ write_strings m s keys.now bits.now n nodes.old leaves.old }
    ensures nodes_after { nodes.new ≡ written_nodes m s keys.now bits.now n nodes.old leaves.old }
    ensures leaves_after { leaves.new ≡ written_leaves m s keys.now bits.now n nodes.old leaves.old }
{
    let list = match asked(m, s, keys, bits, n) {
        Ok(list) => list,
        Err(refusal) => {
            return Strings {
                refusal: refusal.into(),
                node_bytes: 0,
                leaf_bytes: 0,
            };
        }
    };
    let node_bytes = (n + 7) / 8;
    let leaf_bytes = (n - n / 4 + 7) / 8;
    if nodes.len() < node_bytes || leaves.len() < leaf_bytes {
        return Strings {
            refusal: Refusal::AnswerRoom(node_bytes as u64).into(),
            node_bytes: node_bytes as u64,
            leaf_bytes: leaf_bytes as u64,
        };
    }
    pack::pack(list.bits, false, node_bytes, nodes);
    pack::pack(list.bits, true, leaf_bytes, leaves);
    Strings {
        refusal: 0,
        node_bytes: node_bytes as u64,
        leaf_bytes: leaf_bytes as u64,
    }
}
