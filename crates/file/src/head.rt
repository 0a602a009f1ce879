// The bytes of a file before its records: mark, version, m, s and n.
ghost use Rattle.std.specs.Prelude.{◌≡◌, ◌≤◌, length, IfOk};
ghost use Rattle.std.proofs.lemmas.List.Edits.{sets};
ghost use Rattle.definitions.specs.File.{head_length, head_of, other_version, bad_at_version};
ghost use Rattle.definitions.specs.Refused.{refusal_told};
ghost use Rattle.file.specs.Head.{head_refusal, HeadIn};

use crate::{bytes, layout, mark};
use definitions::answers::ListHead;
use definitions::refusal::Refusal;
use list::settings;

pub fn write_head(m: u32, s: u32, n: u32, file: &mut [u8])
    requires { head_length ≤ length file.old }
    ensures { file.new ≡ sets file.old 0 (head_of m s n) }
{
    mark::write_mark(mark::LIST, file);
    bytes::put_u16(layout::version(s), file, 3);
    file[5] = (m % 256) as u8;
    file[6] = (s % 256) as u8;
    bytes::put_u32(n, file, 7);
}

// Refusal 17: neither version, or version 2 with slots that have room in version 1.
#[tactic(auto, using(std::proofs::lemmas::Bool::Decides::nat_tests), unfolding(definitions::specs::File::other_version))]
fn is_other_version(version: u32, s: u32) -> bool
    ensures { result ≡ other_version version s }
{
    match version {
        1 => false,
        2 => s <= layout::FIRST_SLOTS,
        _ => true,
    }
}

// Refusal 1: settings of no list, or version 1 with slots that have no room in it.
#[tactic(auto, using(std::proofs::lemmas::Bool::Decides::nat_tests), unfolding(definitions::specs::File::bad_at_version))]
fn are_bad(version: u32, m: u32, s: u32) -> bool
    ensures { result ≡ bad_at_version version m s }
{
    settings::are_bad(m, s) || version == 1 && layout::FIRST_SLOTS < s
}

// What the head says, or the first refusal that it decides. The mark is compared before the version is read.
pub fn read(file: &[u8]) -> Result<ListHead, Refusal>
    ensures told { refusal_told result ≡ head_refusal file.now }
    ensures head { IfOk result (HeadIn file.now) }
{
    if file.len() < 11 {
        return Err(Refusal::FileLength);
    }
    if mark::is_wrong(mark::LIST, file) {
        return Err(Refusal::FileMark);
    }
    let version = bytes::u16_at(file, 3);
    let m = bytes::u8_at(file, 5);
    let s = bytes::u8_at(file, 6);
    if is_other_version(version, s) {
        return Err(Refusal::FileVersion);
    }
    if are_bad(version, m, s) {
        return Err(Refusal::Settings);
    }
    let n = bytes::u32_at(file, 7) as usize;
    if file.len() != layout::length(layout::width(s), n) {
        return Err(Refusal::FileLength);
    }
    Ok(ListHead { m, s, n })
}
