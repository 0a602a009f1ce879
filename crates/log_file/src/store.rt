// Store: a log becomes the bytes of its file. Refusals 1, 5, 12.
ghost use Rattle.std.specs.Prelude.{◌≡◌};
ghost use Rattle.definitions.specs.Answered.{as_counted};
ghost use Rattle.definitions.specs.Calls.StoreLog.{store_log, store_log_file};

use crate::head;
use definitions::answers::LogHead;
use definitions::refusal::Refusal;
use file::records;
use list::settings;

// The count is in bytes; with 12 it is the number of bytes needed.
pub fn store(
    m: u32,
    s: u32,
    keys: &[u32],
    values: &[u32],
    used: usize,
    in_force: usize,
    file: &mut [u8],
) -> Result<usize, Refusal>
    ensures value { as_counted result ≡ store_log m s keys.now values.now used in_force file.old }
    ensures file_after { file.new ≡ store_log_file m s keys.now values.now used in_force file.old }
{
    if settings::are_bad(m, s) {
        return Err(Refusal::Settings);
    }
    if !edit_log::is_log(m, s, keys, values, used, in_force) {
        return Err(Refusal::Log);
    }
    let needed = head::bytes_for(used);
    if (file.len() as u64) < needed {
        return Err(Refusal::AnswerRoom(needed));
    }
    let head = LogHead {
        m,
        s,
        used,
        in_force,
    };
    head::write_head(head, file);
    records::write_records(4, &keys[..used], &values[..used], &mut file[12..]);
    Ok(needed as usize)
}
