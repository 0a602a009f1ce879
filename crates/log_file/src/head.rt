// The bytes of a log's file before its records: mark, version, m, s and both counts.
ghost use Rattle.std.specs.Prelude.{◌≡◌, ◌≤◌, min, length, eqb, IfOk};
ghost use Rattle.std.proofs.lemmas.List.Edits.{sets};
ghost use Rattle.definitions.specs.LogFile.{log_head_length, log_head_of, log_file_length};
ghost use Rattle.definitions.specs.Refused.{refusal_told};
ghost use Rattle.definitions.specs.Calls.StoreLog.{largest_count};
ghost use Rattle.log_file.specs.Head.{log_head_refusal, LogHeadIn};

use definitions::answers::LogHead;
use definitions::refusal::Refusal;
use file::{bytes, mark};
use list::settings;

// The mark of a log's file.
const MARK: [u8; 3] = *b"HLG";

pub fn write_head(head: LogHead, file: &mut [u8])
    requires { log_head_length ≤ length file.old }
    ensures { file.new ≡ sets file.old 0 (log_head_of head.m head.s head.used head.in_force) }
{
    mark::write_mark(MARK, file);
    bytes::put_u16(1, file, 3);
    file[5] = (head.m % 256) as u8;
    file[6] = (head.s % 256) as u8;
    bytes::put_u64(head.used as u64, file, 7);
    bytes::put_u64(head.in_force as u64, file, 15);
}

// The bytes of a file of so many records, or the largest count where that does not hold them.
pub fn bytes_for(used: usize) -> u64
    ensures { result ≡ min (log_file_length used) largest_count }
{
    (used as u64).saturating_mul(8).saturating_add(23)
}

// A file of so many bytes has just so many records. It is asked without a product, which a count from a file could make too large.
fn is_length_for(length: usize, used: usize) -> bool
    requires { log_head_length ≤ length }
    ensures { result ≡ eqb length (log_file_length used) }
{
    let rest = length - 23;
    rest % 8 == 0 && rest / 8 == used
}

// What the head says, or the first refusal that it decides. The mark is compared before the version is read.
pub fn read(file: &[u8]) -> Result<LogHead, Refusal>
    ensures told { refusal_told result ≡ log_head_refusal file.now }
    ensures head { IfOk result (LogHeadIn file.now) }
{
    if file.len() < 23 {
        return Err(Refusal::FileLength);
    }
    if mark::is_wrong(MARK, file) {
        return Err(Refusal::FileMark);
    }
    if bytes::u16_at(file, 3) != 1 {
        return Err(Refusal::FileVersion);
    }
    let m = bytes::u8_at(file, 5);
    let s = bytes::u8_at(file, 6);
    if settings::are_bad(m, s) {
        return Err(Refusal::Settings);
    }
    let used = bytes::u64_at(file, 7) as usize;
    if !is_length_for(file.len(), used) {
        return Err(Refusal::FileLength);
    }
    let in_force = bytes::u64_at(file, 15) as usize;
    Ok(LogHead {
        m,
        s,
        used,
        in_force,
    })
}
