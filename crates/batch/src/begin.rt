// How a batch begins, with its refusals decided, and what it answers in the end.
ghost use Rattle.std.specs.Prelude.{◌≡◌, cond, eqb, IfErr};
ghost use Rattle.definitions.specs.Refused.{refusal_told, places_needed};
ghost use Rattle.batch.specs.Run.{answering_refusal, answering_begins, answering_ends};

use definitions::Counted;
use definitions::refusal::Refusal;
use list::acceptance::accept;

// The refusal is a number, since the contracts speak of every number in it: a state can be refused with any.
// Where a batch stands: the settings and the number of records, the refusal of the batch, or 0, how many questions there are, and the place of the next.
#[derive(Clone, Copy)]
pub struct BatchState {
    pub m: u32,
    pub s: u32,
    pub n: usize,
    pub refusal: u32,
    pub questions: usize,
    pub place: usize,
}

// The refusals 1, 4 and 12; with 12 as many places are needed as there are questions. No later question looks at the list as a whole again.
pub fn begin_refusal(
    m: u32,
    s: u32,
    keys: &[u32],
    bits: &[u32],
    n: usize,
    questions: usize,
    room_refusals: usize,
    room_values: usize,
) -> Result<(), Refusal>
    ensures told { refusal_told result ≡ answering_refusal m s keys.now bits.now n questions room_refusals room_values }
    ensures needed { IfErr result (λ refusal. places_needed refusal
        ≡ cond (eqb (answering_refusal m s keys.now bits.now n questions room_refusals room_values) 12) questions 0) }
{
    accept(m, s, keys, bits, n)?;
    let room = room_refusals.min(room_values);
    if room < questions {
        return Err(Refusal::AnswerRoom(questions as u64));
    }
    Ok(())
}

pub fn begin(
    m: u32,
    s: u32,
    keys: &[u32],
    bits: &[u32],
    n: usize,
    questions: usize,
    room_refusals: usize,
    room_values: usize,
) -> BatchState
    ensures { result ≡ answering_begins m s keys.now bits.now n questions room_refusals room_values }
{
    let refusal = match begin_refusal(m, s, keys, bits, n, questions, room_refusals, room_values) {
        Ok(()) => 0,
        Err(refusal) => u64::from(refusal) as u32,
    };
    BatchState {
        m,
        s,
        n,
        refusal,
        questions,
        place: 0,
    }
}

// With 12 the count is the number of places needed, which is the questions too.
pub fn answer(state: BatchState) -> Counted
    ensures { result ≡ answering_ends state }
{
    let refusal = u64::from(state.refusal);
    let count = state.questions as u64;
    if refusal == 0 {
        return Counted { refusal, count };
    }
    let full: u64 = Refusal::AnswerRoom(count).into();
    if refusal == full {
        return Counted { refusal, count };
    }
    Counted { refusal, count: 0 }
}
