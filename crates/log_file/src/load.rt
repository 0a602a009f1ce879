// Load: the bytes of a file become a log. Refusals 15 (under 23 bytes), 16, 17, 1, 15 (length), 5 (the file's own log), 10.
ghost use Rattle.std.specs.Prelude.{◌≡◌, List, ℕ, length, IfOk};
ghost use Rattle.definitions.specs.Refused.{refusal_told};
ghost use Rattle.definitions.specs.Answered.{as_loaded_log};
ghost use Rattle.definitions.specs.Calls.LoadLog.{load_log_refusal, load_log, load_log_keys, load_log_values};
ghost use Rattle.log_file.specs.Head.{LogHeadIn};

use crate::{check, head};
use definitions::answers::LogHead;
use definitions::refusal::Refusal;
use file::records;

// What the head says, where two slices of the given lengths are lent and no refusal applies.
fn accept(file: &[u8], in_keys: usize, in_values: usize) -> Result<LogHead, Refusal>
    ensures told { (keys values : List ℕ)
        → length keys ≡ in_keys
        → length values ≡ in_values
        → refusal_told result ≡ load_log_refusal file.now keys values }
    ensures head { IfOk result (LogHeadIn file.now) }
{
    let head = head::read(file)?;
    if !check::is_log(head.m, head.s, &file[12..], head.used, head.in_force) {
        return Err(Refusal::Log);
    }
    if in_keys < head.used || in_values < head.used {
        return Err(Refusal::LogRoom);
    }
    Ok(head)
}

// Nothing is written before all is accepted.
pub fn load(file: &[u8], keys: &mut [u32], values: &mut [u32]) -> Result<LogHead, Refusal>
    ensures value { as_loaded_log result ≡ load_log file.now keys.old values.old }
    ensures keys_after { keys.new ≡ load_log_keys file.now keys.old values.old }
    ensures values_after { values.new ≡ load_log_values file.now keys.old values.old }
{
    let head = accept(file, keys.len(), values.len())?;
    records::read(4, &file[12..], head.used, keys, values);
    Ok(head)
}
