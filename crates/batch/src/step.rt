// One question of a batch: the list is accepted, so only its window and its feature can be bad, and that stops no other.
ghost use Rattle.std.specs.Prelude.{◌≡◌, ◌≤◌, ◌<◌, length, set};
ghost use Rattle.definitions.specs.Clip.{clipped_window};
ghost use Rattle.definitions.specs.Refused.{refusal_number};
ghost use Rattle.batch.specs.Run.{AcceptedMap, reply_told, reply_of, answering_of, BatchReady, batch_step};

use crate::begin::BatchState;
use clipped::clip::clipped_window;
use definitions::refusal::Refusal;
use definitions::{Question, Window};
use list::acceptance::taken;
use walk::bounds::is_window;
use window::exist::exist_in;
use window::report::report_in;

// The part of the question's window that lies in the raster.
fn window_of(m: u32, question: Question) -> Window
    requires { m ≤ 10 }
    ensures { result ≡ clipped_window m question.row question.column question.height question.width }
{
    clipped_window(
        m,
        question.row,
        question.column,
        question.height,
        question.width,
    )
}

// What a question is answered. What it promises is said of the two slices and the records that C lends, so these are passed, and not the list alone: the refusal of the clipped single call, or its value.
pub fn reply_to(
    question: Question,
    m: u32,
    s: u32,
    keys: &[u32],
    bits: &[u32],
    n: usize,
) -> Result<u32, Refusal>
    requires { AcceptedMap m s keys.now bits.now n }
    ensures { reply_told result ≡ reply_of m s keys.now bits.now n question }
{
    let list = taken(m, keys, bits, n);
    let window = window_of(m, question);
    if !is_window(m, window) {
        return Err(Refusal::Window);
    }
    let reports = question.report != 0;
    if reports {
        return Ok(report_in(&list, window));
    }
    let feature = question.feature;
    if s <= feature {
        return Err(Refusal::Feature);
    }
    Ok(u32::from(exist_in(&list, window, feature)))
}

// A refusal's number, at the width of the slice that it goes into.
fn number_of(refusal: Refusal) -> u32
    ensures { result ≡ refusal_number refusal }
{
    u64::from(refusal) as u32
}

// The refusal and the value stand at one place of the two slices, a refused question's too.
pub fn give_reply(
    reply: Result<u32, Refusal>,
    place: usize,
    refusals: &mut [u32],
    values: &mut [u32],
)
    requires { (place < length refusals.old) × (place < length values.old) }
    ensures { (refusals.new ≡ set refusals.old place (reply_told reply).refusal)
        × (values.new ≡ set values.old place (reply_told reply).value) }
{
    match reply {
        Ok(value) => {
            refusals[place] = 0;
            values[place] = value;
        }
        Err(refusal) => {
            refusals[place] = number_of(refusal);
            values[place] = 0;
        }
    }
}

// The question's answer is written at its place, unless the batch is refused. A question that is refused leaves the batch as it is.
pub fn step(
    question: Question,
    keys: &[u32],
    bits: &[u32],
    refusals: &mut [u32],
    values: &mut [u32],
    state: BatchState,
) -> BatchState
    requires { BatchReady keys.now bits.now 1 (answering_of state refusals.old values.old) }
    ensures { answering_of result refusals.new values.new
        ≡ batch_step keys.now bits.now question (answering_of state refusals.old values.old) }
{
    let place = state.place;
    if state.refusal != 0 {
        return state;
    }
    let reply = reply_to(question, state.m, state.s, keys, bits, state.n);
    give_reply(reply, place, refusals, values);
    BatchState {
        place: place + 1,
        ..state
    }
}
