// The batch as a call: it is refused as a whole, or every question is answered at its place.
ghost use Rattle.std.specs.Prelude.{◌≡◌};
ghost use Rattle.definitions.specs.Answered.{as_counted};
ghost use Rattle.definitions.specs.Calls.Batch.{batch, batch_refusals, batch_values};
ghost use Rattle.batch.specs.Run.{OfBatch};

use crate::begin::{answer, begin};
use crate::run::run;
use definitions::refusal::Refusal;
use definitions::{Counted, Question};

// The answer by the name of its refusal. Three numbers refuse a batch, so one that is none of the first two is that of the room.
fn by_name(counted: Counted) -> Result<usize, Refusal>
    requires { OfBatch counted }
    ensures { as_counted result ≡ counted }
{
    match counted.refusal {
        0 => Ok(counted.count as usize),
        1 => Err(Refusal::Settings),
        4 => Err(Refusal::List),
        _ => Err(Refusal::AnswerRoom(counted.count)),
    }
}

// It answers how many questions there were.
pub fn ask_all(
    m: u32,
    s: u32,
    keys: &[u32],
    bits: &[u32],
    n: usize,
    questions: &[Question],
    refusals: &mut [u32],
    values: &mut [u32],
) -> Result<usize, Refusal>
    ensures { (as_counted result ≡ batch m s keys.now bits.now n questions.now refusals.old values.old)
        × (refusals.new ≡ batch_refusals m s keys.now bits.now n questions.now refusals.old values.old)
        × (values.new ≡ batch_values m s keys.now bits.now n questions.now refusals.old values.old) }
{
    let asked = questions.len();
    let begun = begin(m, s, keys, bits, n, asked, refusals.len(), values.len());
    let done = run(questions, keys, bits, refusals, values, begun);
    by_name(answer(done))
}
