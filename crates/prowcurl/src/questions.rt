// The batch for C: many questions of one list, which is checked once.
ghost use Rattle.std.specs.Prelude.{◌≡◌};
ghost use Rattle.definitions.specs.Calls.Batch.{batch as batch_answer, batch_refusals, batch_values};

use batch::call;
use definitions::{Counted, Question};

#[unsafe(no_mangle)]
pub extern "C" fn hlq_batch(
    m: u32,
    s: u32,
    keys: &[u32],
    bits: &[u32],
    n: usize,
    questions: &[Question],
    refusals: &mut [u32],
    values: &mut [u32],
) -> Counted
    ensures { (result ≡ batch_answer m s keys.now bits.now n questions.now refusals.old values.old)
        × (refusals.new ≡ batch_refusals m s keys.now bits.now n questions.now refusals.old values.old)
        × (values.new ≡ batch_values m s keys.now bits.now n questions.now refusals.old values.old) }
{
    call::ask_all(m, s, keys, bits, n, questions, refusals, values).into()
}
