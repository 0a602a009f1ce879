// The mark of a file: its first three bytes, by which its kind is known. Store writes it and load compares it.
ghost use Rattle.std.specs.Prelude.{◌≡◌, ◌≤◌, not, length, take};
ghost use Rattle.std.proofs.lemmas.List.Edits.{sets};
ghost use Rattle.definitions.specs.File.{same_bytes};

// The mark of a list's file.
pub const LIST: [u8; 3] = *b"HLQ";

pub fn write_mark(mark: [u8; 3], file: &mut [u8])
    requires { 3 ≤ length file.old }
    ensures { file.new ≡ sets file.old 0 mark }
{
    file[..3].copy_from_slice(&mark);
}

pub fn is_wrong(mark: [u8; 3], file: &[u8]) -> bool
    ensures { result ≡ not (same_bytes (take 3 file.now) mark) }
{
    !file.starts_with(&mark)
}
