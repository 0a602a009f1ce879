// An accepted list: whoever is given one need not check it again.
ghost use Rattle.std.specs.Prelude.{◌≡◌, ◌≤◌, length};
ghost use Rattle.list.specs.Own.{OwnList};

// A map's resolution, and the keys and bits of its list's records.
#[derive(Clone, Copy)]
pub struct Accepted<'a> {
    pub m: u32,
    pub keys: &'a [u32],
    pub bits: &'a [u32],
    pub ghost deepest: { m ≤ 10 },
    pub ghost paired: { length bits.now ≡ length keys.now },
    pub ghost own: { OwnList m keys.now bits.now (length keys.now) },
}
