// A deed on a map, with the log that it reads, as one value: what it makes of a block, and as much of it as concerns a block. A deed that fills a window
// reads no log.
ghost use Rattle.deeds.specs.Deed.{Doable};

use crate::deed::Deed;
use crate::meeting::Meeting;
use crate::{entries, fill, run};
use keys::block::TreeBlock;

// The deed is one that can be done on a map of resolution m: a window of such a map, or entries of the log.
#[derive(Clone, Copy)]
pub struct Doing<'a> {
    pub m: u32,
    pub deed: Deed,
    pub log_keys: &'a [u32],
    pub log_values: &'a [u32],
    pub ghost doable: { ∥ Doable m deed log_keys.now log_values.now ∥₁ },
}

impl Doing<'_> {
    ghost use Rattle.std.specs.Prelude.{◌+◌, ◌^◌};
    ghost use Rattle.keys.specs.Child.{KeysEnd};
    ghost use Rattle.deeds.specs.Meeting.{BlockAsked};
    ghost use Rattle.deeds.specs.Doing.{MetWith, NarrowerDeed};

    // What the step makes of a block.
    pub fn meeting(self, block: TreeBlock) -> Meeting
        requires { BlockAsked self.m block }
        ensures { MetWith self.entry block result }
    {
        let Doing {
            m,
            deed,
            log_keys,
            log_values,
        } = self;
        match deed {
            Deed::Fill(window, feature) => fill::meeting(window, feature, m, block),
            Deed::Back(run) => entries::meeting_back(run, log_keys, log_values, m, block),
            Deed::Again(run) => entries::meeting_again(run, log_keys, log_values, m, block),
        }
    }

    // As much of the step as concerns a block and what lies before it in key order. A window is told as it is.
    pub fn narrowed(self, block: TreeBlock) -> Self
        requires { KeysEnd block }
        ensures { NarrowerDeed (block.key + 5 ^ block.height) self.entry result }
    {
        let Doing {
            m,
            deed,
            log_keys,
            log_values,
        } = self;
        let deed = match deed {
            Deed::Fill(window, feature) => Deed::Fill(window, feature),
            Deed::Back(run) => Deed::Back(run::up_to(m, log_keys, log_values, run, block)),
            Deed::Again(run) => Deed::Again(run::up_to(m, log_keys, log_values, run, block)),
        };
        Doing {
            m,
            deed,
            log_keys,
            log_values,
        }
    }
}
