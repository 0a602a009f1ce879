// Moves inside and between lent slices, which the edits are made of. The loops do nothing but move, since an edit moves most of a list.
#![tactic(auto)]

ghost use Rattle.std.specs.Prelude.{◌≡◌, cond, ◌+◌, ◌-◌, ◌≤◌, min, length, take, drop, replicate, set, ltb};
ghost use Rattle.std.proofs.lemmas.List.Edits.{sets};

// Two slices that go together have room for as much as the shorter one: of two lengths the smaller.
pub fn smaller(a: usize, b: usize) -> usize
    ensures { result ≡ min a b }
{
    a.min(b)
}

// Writes a number at its place, if that is within the limit: with the limit 0 answers are only counted.
pub fn write_within(answer: &mut [u32], limit: usize, place: usize, number: u32)
    requires { limit ≤ length answer.old }
    ensures { answer.new ≡ cond (ltb place limit) (set answer.old place number) answer.old }
{
    if place < limit {
        answer[place] = number;
    }
}

// The places from `at` on become what `from` has from `start` on, so many as `count` says. The library's `copy_from_slice` would make the archive want
// `memmove` of C too, and it wants no more than `memcpy` and `memset`.
pub fn copy(from: &[u32], start: usize, count: usize, to: &mut [u32], at: usize)
    requires { (start + count ≤ length from.now) × (at + count ≤ length to.old) }
    ensures { to.new ≡ sets to.old at (take count (drop start from.now)) }
{
    for done in 0..count {
        to[at + done] = from[start + done];
    }
}

// Towards the front: the first place is moved first, so that no place is overwritten before it is read. An edit moves most of a list, and the library's
// `copy_within` takes half as long again for it.
fn shift_down(slice: &mut [u32], from: usize, count: usize, to: usize)
    requires { (to ≤ from) × (from + count ≤ length slice.old) }
    ensures { slice.new ≡ sets slice.old to (take count (drop from slice.old)) }
{
    for i in 0..count {
        slice[to + i] = slice[from + i];
    }
}

// Towards the end: the last place is moved first.
fn shift_up(slice: &mut [u32], from: usize, count: usize, to: usize)
    requires { (from ≤ to) × (to + count ≤ length slice.old) }
    ensures { slice.new ≡ sets slice.old to (take count (drop from slice.old)) }
{
    for i in (0..count).rev() {
        slice[to + i] = slice[from + i];
    }
}

// The places from `to` on become what those from `from` on were, so many as `count` says. The two runs may overlap.
pub fn shift(slice: &mut [u32], from: usize, count: usize, to: usize)
    requires { (from + count ≤ length slice.old) × (to + count ≤ length slice.old) }
    ensures { slice.new ≡ sets slice.old to (take count (drop from slice.old)) }
{
    if to < from {
        shift_down(slice, from, count, to);
    } else if from < to {
        shift_up(slice, from, count, to);
    }
}

// The places from `from` up to `end` become zero.
pub fn clear(slice: &mut [u32], from: usize, end: usize)
    requires { (from ≤ end) × (end ≤ length slice.old) }
    ensures { slice.new ≡ sets slice.old from (replicate (end - from) 0) }
{
    slice[from..end].fill(0);
}
