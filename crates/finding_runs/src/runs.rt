// The runs of findings: how the first begins, which run comes after a run, and what the last answers.
ghost use Rattle.std.specs.Prelude.{◌≡◌};
ghost use Rattle.finding_runs.specs.Run.{bounding, begin_refusal, begin_of, own_at, after_run, answer_of};

use crate::state;
use crate::state::RunState;
use definitions::Found;
use definitions::refusal::Refusal;
use list::acceptance::accept;
use offices::own;
use offices::own::OwnRows;

// The rows of an office where the table is not looked at.
const NO_ROWS: OwnRows = OwnRows {
    offset: 0,
    count: 0,
};

// The refusals 21, 1 and 4.
fn begin_refusal(office: u32, m: u32, s: u32, keys: &[u32], bits: &[u32], n: usize) -> u64
    ensures { result ≡ begin_refusal office m s keys.now bits.now n }
{
    if 1 < office {
        return Refusal::Office.into();
    }
    match accept(m, s, keys, bits, n) {
        Ok(_) => 0,
        Err(refusal) => refusal.into(),
    }
}

// The run that checks begins: it bounds the number of findings. The table is looked at where nothing is refused so far.
pub fn begin(
    m: u32,
    s: u32,
    keys: &[u32],
    bits: &[u32],
    n: usize,
    office: u32,
    offices: &[u32],
    ids: &[u32],
    waived: &[u32],
    rows: usize,
    room_ids: usize,
    room_keys: usize,
) -> RunState
    ensures { result ≡ bounding 0 (begin_of m s keys.now bits.now n office
        (own_at m s keys.now bits.now n office offices.now ids.now waived.now rows) room_ids room_keys) }
{
    let refusal = begin_refusal(office, m, s, keys, bits, n);
    let own = if refusal == 0 {
        own::own_rows(m, office, offices, ids, waived, rows)
    } else {
        Some(NO_ROWS)
    };
    let rows = own.unwrap_or(NO_ROWS);
    RunState {
        m,
        s,
        n,
        mode: state::BOUNDING,
        refusal,
        next: 0,
        faulty: own.is_none(),
        offset: rows.offset,
        waivers: rows.count,
        passed: 0,
        limit: 0,
        room: room_ids.min(room_keys),
        live: 0,
        hidden: 0,
    }
}

// A run is over: 14 is decided, and 12 where the findings were counted; then comes the run that counts, if the bound is past the room, or that writes.
pub fn begin_next(state: RunState) -> RunState
    ensures { result ≡ after_run state }
{
    let room = state.room;
    if state.refusal != 0 {
        return state;
    }
    if state.faulty {
        return state::refused(state, Refusal::Waivers.into());
    }
    if state.passed < state.waivers {
        return state::refused(state, Refusal::Waivers.into());
    }
    if state.mode == state::BOUNDING {
        if room < state.live {
            return state::restarted(state, 0);
        }
        return state::rested(state);
    }
    if room < state.live {
        return state::refused(state, Refusal::AnswerRoom(state.live as u64).into());
    }
    state::restarted(state, room)
}

// With 12 live is the number of places needed, and hidden is 0.
pub fn answer(state: RunState) -> Found
    ensures { result ≡ answer_of state }
{
    let refusal = state.refusal;
    let live = state.live as u64;
    let hidden = state.hidden as u64;
    if refusal == 0 {
        return Found {
            refusal,
            live,
            hidden,
        };
    }
    let full: u64 = Refusal::AnswerRoom(live).into();
    if refusal == full {
        return Found {
            refusal,
            live,
            hidden: 0,
        };
    }
    Found {
        refusal,
        live: 0,
        hidden: 0,
    }
}
