// What an accepted call answers, and how each answer, accepted or refused, is laid out for C.
ghost use Rattle.std.specs.Prelude.{◌≡◌};
ghost use Rattle.definitions.specs.Refused.{places_needed};
ghost use Rattle.definitions.specs.Answered.{as_done, as_counted, as_keyed, as_exists, as_reported, as_measured, as_edited, as_found, as_loaded, as_loaded_log, as_stands, as_block};

use crate::refusal::Refusal;
use crate::{
    Block, Counted, Done, Edited, Exists, Found, Keyed, Loaded, LoadedLog, Measured, Reported,
    Standing, Stands,
};
use keys::{Key, Square};

// How long list and log are after an edit, and how many records of the log are in force.
#[derive(Clone, Copy, PartialEq, Eq)]
pub struct SheetCounts {
    pub n: usize,
    pub used: usize,
    pub in_force: usize,
}

// How many findings are live, and how many waivers hide.
#[derive(Clone, Copy, PartialEq, Eq)]
pub struct FindingCounts {
    pub live: usize,
    pub hidden: usize,
}

// What the head of a list's file says.
#[derive(Clone, Copy, PartialEq, Eq)]
pub struct ListHead {
    pub m: u32,
    pub s: u32,
    pub n: usize,
}

// What the head of a log's file says.
#[derive(Clone, Copy, PartialEq, Eq)]
pub struct LogHead {
    pub m: u32,
    pub s: u32,
    pub used: usize,
    pub in_force: usize,
}

// How many places the answer needs, where it exceeds its room; otherwise C is told none.
pub fn needed(refusal: Refusal) -> u64
    ensures { result ≡ places_needed refusal }
{
    if let Refusal::AnswerRoom(needed) = refusal {
        needed
    } else {
        0
    }
}

impl From<Result<(), Refusal>> for Done {
    ghost from_gives = { λ answer done. done ≡ as_done answer };

    fn from(answer: Result<(), Refusal>) -> Done {
        match answer {
            Ok(()) => Done { refusal: 0 },
            Err(refusal) => Done {
                refusal: refusal.into(),
            },
        }
    }
}

impl From<Result<usize, Refusal>> for Counted {
    ghost from_gives = { λ answer counted. counted ≡ as_counted answer };

    fn from(answer: Result<usize, Refusal>) -> Counted {
        match answer {
            Ok(count) => Counted {
                refusal: 0,
                count: count as u64,
            },
            Err(refusal) => Counted {
                refusal: refusal.into(),
                count: needed(refusal),
            },
        }
    }
}

impl From<Result<Key, Refusal>> for Keyed {
    ghost from_gives = { λ answer keyed. keyed ≡ as_keyed answer };

    fn from(answer: Result<Key, Refusal>) -> Keyed {
        match answer {
            Ok(key) => Keyed {
                refusal: 0,
                key: u64::from(key.number),
            },
            Err(refusal) => Keyed {
                refusal: refusal.into(),
                key: 0,
            },
        }
    }
}

impl From<Result<bool, Refusal>> for Exists {
    ghost from_gives = { λ answer exists. exists ≡ as_exists answer };

    fn from(answer: Result<bool, Refusal>) -> Exists {
        match answer {
            Ok(occurs) => Exists {
                refusal: 0,
                yes: u64::from(occurs),
            },
            Err(refusal) => Exists {
                refusal: refusal.into(),
                yes: 0,
            },
        }
    }
}

impl From<Result<u32, Refusal>> for Reported {
    ghost from_gives = { λ answer reported. reported ≡ as_reported answer };

    fn from(answer: Result<u32, Refusal>) -> Reported {
        match answer {
            Ok(bits) => Reported {
                refusal: 0,
                bits: u64::from(bits),
            },
            Err(refusal) => Reported {
                refusal: refusal.into(),
                bits: 0,
            },
        }
    }
}

impl From<Result<u32, Refusal>> for Measured {
    ghost from_gives = { λ answer measured. measured ≡ as_measured answer };

    fn from(answer: Result<u32, Refusal>) -> Measured {
        match answer {
            Ok(pixels) => Measured {
                refusal: 0,
                pixels: u64::from(pixels),
            },
            Err(refusal) => Measured {
                refusal: refusal.into(),
                pixels: 0,
            },
        }
    }
}

impl From<Result<SheetCounts, Refusal>> for Edited {
    ghost from_gives = { λ answer edited. edited ≡ as_edited answer };

    fn from(answer: Result<SheetCounts, Refusal>) -> Edited {
        match answer {
            Ok(counts) => Edited {
                refusal: 0,
                n: counts.n as u64,
                used: counts.used as u64,
                in_force: counts.in_force as u64,
            },
            Err(refusal) => Edited {
                refusal: refusal.into(),
                n: 0,
                used: 0,
                in_force: 0,
            },
        }
    }
}

impl From<Result<FindingCounts, Refusal>> for Found {
    ghost from_gives = { λ answer found. found ≡ as_found answer };

    fn from(answer: Result<FindingCounts, Refusal>) -> Found {
        match answer {
            Ok(counts) => Found {
                refusal: 0,
                live: counts.live as u64,
                hidden: counts.hidden as u64,
            },
            Err(refusal) => Found {
                refusal: refusal.into(),
                live: needed(refusal),
                hidden: 0,
            },
        }
    }
}

impl From<Result<ListHead, Refusal>> for Loaded {
    ghost from_gives = { λ answer loaded. loaded ≡ as_loaded answer };

    fn from(answer: Result<ListHead, Refusal>) -> Loaded {
        match answer {
            Ok(head) => Loaded {
                refusal: 0,
                m: u64::from(head.m),
                s: u64::from(head.s),
                n: head.n as u64,
            },
            Err(refusal) => Loaded {
                refusal: refusal.into(),
                m: 0,
                s: 0,
                n: 0,
            },
        }
    }
}

impl From<Result<LogHead, Refusal>> for LoadedLog {
    ghost from_gives = { λ answer loaded. loaded ≡ as_loaded_log answer };

    fn from(answer: Result<LogHead, Refusal>) -> LoadedLog {
        match answer {
            Ok(head) => LoadedLog {
                refusal: 0,
                m: u64::from(head.m),
                s: u64::from(head.s),
                used: head.used as u64,
                in_force: head.in_force as u64,
            },
            Err(refusal) => LoadedLog {
                refusal: refusal.into(),
                m: 0,
                s: 0,
                used: 0,
                in_force: 0,
            },
        }
    }
}

// Kind 1 is listed at the place with so many records, kind 2 inside the leaf at the place with that key and level.
impl From<Result<Standing, Refusal>> for Stands {
    ghost from_gives = { λ answer stands. stands ≡ as_stands answer };

    fn from(answer: Result<Standing, Refusal>) -> Stands {
        match answer {
            Ok(Standing::Listed(place, records)) => Stands {
                refusal: 0,
                kind: 1,
                place: place as u64,
                records: records as u64,
                leaf: 0,
                level: 0,
            },
            Ok(Standing::Inside(place, leaf, level)) => Stands {
                refusal: 0,
                kind: 2,
                place: place as u64,
                records: 0,
                leaf: u64::from(leaf),
                level: u64::from(level),
            },
            Err(refusal) => Stands {
                refusal: refusal.into(),
                kind: 0,
                place: 0,
                records: 0,
                leaf: 0,
                level: 0,
            },
        }
    }
}

// The square of a key, and its level.
impl From<Result<(Square, u32), Refusal>> for Block {
    ghost from_gives = { λ answer block. block ≡ as_block answer };

    fn from(answer: Result<(Square, u32), Refusal>) -> Block {
        match answer {
            Ok((square, level)) => Block {
                refusal: 0,
                row: u64::from(square.row),
                column: u64::from(square.column),
                side: u64::from(square.side),
                level: u64::from(level),
            },
            Err(refusal) => Block {
                refusal: refusal.into(),
                row: 0,
                column: 0,
                side: 0,
                level: 0,
            },
        }
    }
}
