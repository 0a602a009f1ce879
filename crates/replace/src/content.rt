// The content that a block gets: the records of its list.
ghost use Rattle.std.specs.Prelude.{◌≡◌, length};

// As many keys as bits.
#[derive(Clone, Copy)]
pub struct BlockContent<'a> {
    pub keys: &'a [u32],
    pub bits: &'a [u32],
    pub ghost paired: { length bits.now ≡ length keys.now },
}
