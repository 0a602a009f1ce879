// The loop over the lent questions. Each question is copied out and given to `step`, which has all the logic.
ghost use Rattle.std.specs.Prelude.{◌≡◌, length};
ghost use Rattle.batch.specs.Run.{answering_of, BatchReady, batch_run};

use crate::begin::BatchState;
use crate::step;
use definitions::Question;

pub fn run(
    questions: &[Question],
    keys: &[u32],
    bits: &[u32],
    refusals: &mut [u32],
    values: &mut [u32],
    state: BatchState,
) -> BatchState
    requires { BatchReady keys.now bits.now (length questions.now) (answering_of state refusals.old values.old) }
    ensures { answering_of result refusals.new values.new
        ≡ batch_run keys.now bits.now questions.now (answering_of state refusals.old values.old) }
{
    let mut st = state;
    for question in questions {
        st = step::step(*question, keys, bits, refusals, values, st);
    }
    st
}
