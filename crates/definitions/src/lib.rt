// The types in which the calls (specification S25) are asked and answered. What they mean stands in specs/, and what is proved of that in proofs/.
#![tactic(auto)]

pub mod answers;
pub mod refusal;

// A window of the raster. Height and width are at least 1.
#[derive(Clone, Copy)]
pub struct Window {
    pub row: u32,
    pub column: u32,
    pub height: u32,
    pub width: u32,
}

// A rule: the feature is forbidden in the window.
#[repr(C)]
#[derive(Clone, Copy)]
pub struct Rule {
    pub id: u32,
    pub row: u32,
    pub column: u32,
    pub height: u32,
    pub width: u32,
    pub feature: u32,
}

// A question of a batch: does the feature occur in the dragged window (report 0), or which features do (any other number)?
#[repr(C)]
#[derive(Clone, Copy)]
pub struct Question {
    pub report: u32,
    pub row: i32,
    pub column: i32,
    pub height: u32,
    pub width: u32,
    pub feature: u32,
}

// Where a block stands: it is listed at a place, with the number of records that it and all below it take; or it lies inside the leaf at a place, with
// the leaf's key and level.
#[derive(Clone, Copy)]
pub enum Standing {
    Listed(usize, usize),
    Inside(usize, u32, u32),
}

// The answers, laid out as C has them. `refusal` is 0 or a number of specification S24; on a refusal every other number is 0, save the places needed with 12.
#[repr(C)]
#[derive(Clone, Copy)]
pub struct Done {
    pub refusal: u64,
}

#[repr(C)]
#[derive(Clone, Copy)]
pub struct Counted {
    pub refusal: u64,
    pub count: u64,
}

#[repr(C)]
#[derive(Clone, Copy)]
pub struct Keyed {
    pub refusal: u64,
    pub key: u64,
}

#[repr(C)]
#[derive(Clone, Copy)]
pub struct Stands {
    pub refusal: u64,
    pub kind: u64,
    pub place: u64,
    pub records: u64,
    pub leaf: u64,
    pub level: u64,
}

#[repr(C)]
#[derive(Clone, Copy)]
pub struct Block {
    pub refusal: u64,
    pub row: u64,
    pub column: u64,
    pub side: u64,
    pub level: u64,
}

#[repr(C)]
#[derive(Clone, Copy)]
pub struct Span {
    pub start: u64,
    pub length: u64,
}

#[repr(C)]
#[derive(Clone, Copy)]
pub struct Exists {
    pub refusal: u64,
    pub yes: u64,
}

#[repr(C)]
#[derive(Clone, Copy)]
pub struct Reported {
    pub refusal: u64,
    pub bits: u64,
}

#[repr(C)]
#[derive(Clone, Copy)]
pub struct Measured {
    pub refusal: u64,
    pub pixels: u64,
}

#[repr(C)]
#[derive(Clone, Copy)]
pub struct Edited {
    pub refusal: u64,
    pub n: u64,
    pub used: u64,
    pub in_force: u64,
}

#[repr(C)]
#[derive(Clone, Copy)]
pub struct Emptied {
    pub used: u64,
    pub in_force: u64,
}

#[repr(C)]
#[derive(Clone, Copy)]
pub struct Found {
    pub refusal: u64,
    pub live: u64,
    pub hidden: u64,
}

#[repr(C)]
#[derive(Clone, Copy)]
pub struct Loaded {
    pub refusal: u64,
    pub m: u64,
    pub s: u64,
    pub n: u64,
}

#[repr(C)]
#[derive(Clone, Copy)]
pub struct LoadedLog {
    pub refusal: u64,
    pub m: u64,
    pub s: u64,
    pub used: u64,
    pub in_force: u64,
}

// The bytes of a pair of bit strings.
#[repr(C)]
#[derive(Clone, Copy)]
pub struct Strings {
    pub refusal: u64,
    pub node_bytes: u64,
    pub leaf_bytes: u64,
}
