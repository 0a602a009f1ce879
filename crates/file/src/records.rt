// The records of a file, all written and all read.
ghost use Rattle.std.specs.Prelude.{◌≡◌, length};
ghost use Rattle.std.proofs.lemmas.List.Edits.{sets};
ghost use Rattle.definitions.specs.Buffer.{over};
ghost use Rattle.definitions.specs.File.{head_length, bytes_of_records};
ghost use Rattle.definitions.specs.Read.{records_of};
ghost use Rattle.file.specs.Layout.{keys_at, values_at};
ghost use Rattle.file.specs.Room.{RoomFor};

use crate::layout;

// The records of two slices become bytes.
pub fn write_records(width: usize, keys: &[u32], bits: &[u32], file: &mut [u8])
    requires { RoomFor width (length keys.now) keys.now bits.now file.old }
    ensures { file.new ≡ sets file.old head_length (bytes_of_records width (records_of keys.now bits.now (length keys.now))) }
{
    for i in 0..keys.len() {
        layout::put_record(keys[i], bits[i], file, width, i);
    }
}

// The first n records of a file go into two slices.
pub fn read(width: usize, file: &[u8], n: usize, keys: &mut [u32], bits: &mut [u32])
    requires { RoomFor width n keys.old bits.old file.now }
    ensures keys_after { keys.new ≡ over (keys_at width n file.now) keys.old }
    ensures bits_after { bits.new ≡ over (values_at width n file.now) bits.old }
{
    for i in 0..n {
        keys[i] = layout::key_at(file, width, i);
        bits[i] = layout::bits_at(file, width, i);
    }
}
