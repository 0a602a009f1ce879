// Where a run over the rules stands, and how one thing after the other changes it.
ghost use Rattle.std.specs.Prelude.{◌≡◌, eqb};
ghost use Rattle.finding_runs.specs.Run.{mode_number, refusing, faulty_from, counting, resting, restarting};

use finding::Sifting;

// A run that only bounds the number of a rule's findings, by the pixels of its window.
pub const BOUNDING: u32 = 0;

// A run that walks the windows, and counts the findings and writes them up to its limit.
pub const WALKING: u32 = 1;

// A run that passes over all rules.
pub const RESTING: u32 = 2;

// The three modes by name, for a caller that wants names. No state holds one: it keeps the number (decision 143).
#[derive(Clone, Copy, PartialEq, Eq)]
pub enum Mode {
    // It only bounds the number of the rule's findings, by the pixels of its window.
    Bounding,

    // It walks the window, counts the findings and writes them up to its limit.
    Walking,

    // It passes over all rules.
    Resting,
}

impl Mode {
    pub fn bounds(self) -> bool
        ensures { result ≡ eqb (mode_number self) 0 }
    {
        matches!(self, Mode::Bounding)
    }

    pub fn rests(self) -> bool
        ensures { result ≡ eqb (mode_number self) 2 }
    {
        matches!(self, Mode::Resting)
    }
}

// Mode and refusal are numbers, since the contracts speak of every number in them: every other mode walks, and a state can be refused with any number.
// `faulty` is no flag of a value beside it: with a wrong waiver the rules are still looked at, since 13 comes before 14.
// Where a run over the rules stands: the settings and the number of records; which of the three runs it is; the refusal, or 0; the least id that the next rule may have;
// whether a waiver is wrong; where the asking office's rows begin, how many they are and how many are passed; how many findings may be written, and how many have room; and how many
// were live and hidden. A run that bounds has in `live` a number that the live findings do not exceed.
#[derive(Clone, Copy)]
pub struct RunState {
    pub m: u32,
    pub s: u32,
    pub n: usize,
    pub mode: u32,
    pub refusal: u64,
    pub next: u64,
    pub faulty: bool,
    pub offset: usize,
    pub waivers: usize,
    pub passed: usize,
    pub limit: usize,
    pub room: usize,
    pub live: usize,
    pub hidden: usize,
}

// The run is refused.
pub fn refused(state: RunState, number: u64) -> RunState
    ensures { result ≡ refusing number state }
{
    RunState {
        refusal: number,
        ..state
    }
}

// A waiver is wrong: from here on only the rules are looked at.
pub fn faulty_from(state: RunState, next: u64) -> RunState
    ensures { result ≡ faulty_from next state }
{
    RunState {
        next,
        faulty: true,
        ..state
    }
}

// The rule's findings are counted.
pub fn counted(state: RunState, next: u64, passed: usize, sifted: Sifting) -> RunState
    ensures { result ≡ counting next passed sifted.live sifted.hidden state }
{
    RunState {
        next,
        passed,
        live: sifted.live,
        hidden: sifted.hidden,
        ..state
    }
}

// The next run has nothing to count: the bound is within the room.
pub fn rested(state: RunState) -> RunState
    ensures { result ≡ resting state }
{
    RunState {
        mode: RESTING,
        ..state
    }
}

// The rules are gone through from the first again, and up to the limit findings are written.
pub fn restarted(state: RunState, limit: usize) -> RunState
    ensures { result ≡ restarting limit state }
{
    RunState {
        mode: WALKING,
        refusal: 0,
        next: 0,
        faulty: false,
        passed: 0,
        limit,
        live: 0,
        hidden: 0,
        ..state
    }
}

#[cfg(test)]
mod tests {
    use super::*;

    #[test]
    fn tells_the_modes_apart(rt: HostRuntime) {
        for (mode, bounds, rests) in [
            (Mode::Bounding, true, false),
            (Mode::Walking, false, false),
            (Mode::Resting, false, true),
        ] {
            assert_eq!(rt; mode.bounds(), bounds);
            assert_eq!(rt; mode.rests(), rests);
        }
    }
}
