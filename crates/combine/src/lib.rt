// Two lists of one resolution are combined into a third, class by class through a table (specification S19). One pass writes the records. Too
// little room is refused before anything is written, so the records are counted first where the room could be too little.
#![tactic(auto)]

ghost use Rattle.std.specs.Prelude.{◌≡◌, IfOk, leb, length, ◌||◌};
ghost use Rattle.definitions.specs.Answered.{as_counted};
ghost use Rattle.definitions.specs.Refusal.{first, bad_settings};
ghost use Rattle.definitions.specs.Refused.{refusal_told};
ghost use Rattle.definitions.specs.Calls.Combine.{combine as combination, combine_keys, combine_bits};
ghost use Rattle.combine.specs.Ready.{early_rows, BothTaken, ListsReady, list_combined, Answered};

use definitions::refusal::Refusal;
use keys::{Key, power, span};
use list::accepted_list::Accepted;
use list::settings;

mod classes;
mod count;
mod cursor;
mod write;

// Some pair of settings is bad; those of the result are m1 and s3.
fn settings_are_bad(m1: u32, s1: u32, m2: u32, s2: u32, s3: u32) -> bool
    ensures { result ≡ bad_settings m1 s1 || (bad_settings m2 s2 || bad_settings m1 s3) }
{
    settings::are_bad(m1, s1) || settings::are_bad(m2, s2) || settings::are_bad(m1, s3)
}

// The two lists that are combined.
#[derive(Clone, Copy)]
struct Lists<'a> {
    first: Accepted<'a>,
    second: Accepted<'a>,
}

// Both lists, where the table fits them: refusals 1, 24, 4 and 25.
fn asked<'a>(
    m1: u32,
    s1: u32,
    keys1: &'a [u32],
    bits1: &'a [u32],
    n1: usize,
    m2: u32,
    s2: u32,
    keys2: &'a [u32],
    bits2: &'a [u32],
    n2: usize,
    s3: u32,
    table: &[u8],
) -> Result<Lists<'a>, Refusal>
    ensures told { refusal_told result ≡ first (early_rows m1 s1 keys1.now bits1.now n1 m2 s2 keys2.now bits2.now n2 s3 table.now) }
    ensures lists { IfOk result (λ lists. BothTaken m1 keys1.now bits1.now n1 m2 keys2.now bits2.now n2 lists.first lists.second) }
{
    if settings_are_bad(m1, s1, m2, s2, s3) {
        return Err(Refusal::Settings);
    }
    if m1 != m2 {
        return Err(Refusal::Resolution);
    }
    let first = list::accept(m1, s1, keys1, bits1, n1)?;
    let second = list::accept(m2, s2, keys2, bits2, n2)?;
    if classes::is_bad(s1, s2, s3, table) {
        return Err(Refusal::ClassTable);
    }
    Ok(Lists { first, second })
}

// The combined list fits into the room. It has fewer records than the two together, so it is counted only where those would not fit.
fn has_room(
    first: &Accepted<'_>,
    second: &Accepted<'_>,
    table: &[u8],
    s2: usize,
    room: usize,
) -> bool
    requires { ListsReady first.now second.now table.now s2 }
    ensures { result ≡ leb (length (list_combined first.now second.now table.now s2)) room }
{
    if first.keys.len() + second.keys.len() - 1 <= room {
        return true;
    }
    let step = power::power_of_five(first.m);
    let roots = cursor::at_roots();
    let whole = count::count_block(first.bits, second.bits, table, s2, step, roots);
    whole.tally.count <= room
}

// How many records the combined list has, or refusal 9. That there is room is known before the first write.
fn combine_ready(
    first: &Accepted<'_>,
    second: &Accepted<'_>,
    table: &[u8],
    s2: usize,
    keys: &mut [u32],
    bits: &mut [u32],
) -> Result<usize, Refusal>
    requires { ListsReady first.now second.now table.now s2 }
    ensures { Answered (list_combined first.now second.now table.now s2) keys.old bits.old keys.new bits.new (as_counted result) }
{
    let room = keys.len().min(bits.len());
    if !has_room(first, second, table, s2, room) {
        return Err(Refusal::ListRoom);
    }
    let root = write::write_block(
        first.bits,
        second.bits,
        table,
        s2,
        span::root(first.m),
        cursor::at_roots(),
        0,
        keys,
        bits,
    );
    let below = root.below;
    keys[0] = Key::ROOT;
    bits[0] = below.bits;
    Ok(below.next)
}

// The list of two lists combined, or the first refusal that applies. The two may be the same.
pub fn combine(
    m1: u32,
    s1: u32,
    keys1: &[u32],
    bits1: &[u32],
    n1: usize,
    m2: u32,
    s2: u32,
    keys2: &[u32],
    bits2: &[u32],
    n2: usize,
    s3: u32,
    table: &[u8],
    keys: &mut [u32],
    bits: &mut [u32],
) -> Result<usize, Refusal>
    ensures value { as_counted result ≡ combination m1 s1 keys1.now bits1.now n1 m2 s2 keys2.now bits2.now n2 s3 table.now keys.old bits.old }
    ensures keys_after { keys.new ≡ combine_keys m1 s1 keys1.now bits1.now n1 m2 s2 keys2.now bits2.now n2 s3 table.now keys.old bits.old }
    ensures bits_after { bits.new ≡ combine_bits m1 s1 keys1.now bits1.now n1 m2 s2 keys2.now bits2.now n2 s3 table.now keys.old bits.old }
{
    let lists = asked(
        m1, s1, keys1, bits1, n1, m2, s2, keys2, bits2, n2, s3, table,
    )?;
    combine_ready(&lists.first, &lists.second, table, s2 as usize, keys, bits)
}
