// Numbers as bytes of the file, high byte first. What each call requires is shown by its callers: the bytes are there.
ghost use Rattle.std.specs.Prelude.{◌≡◌, ◌+◌, ◌≤◌, ◌<◌, length};
ghost use Rattle.std.proofs.lemmas.List.Edits.{sets};
ghost use Rattle.definitions.specs.File.{bytes_of, number_at};

// The number's last 16 bits at a place.
pub fn put_u16(x: u32, file: &mut [u8], place: usize)
    requires { place + 2 ≤ length file.old }
    ensures { file.new ≡ sets file.old place (bytes_of 2 x) }
{
    file[place..place + 2].copy_from_slice(&((x % 65536) as u16).to_be_bytes());
}

pub fn put_u32(x: u32, file: &mut [u8], place: usize)
    requires { place + 4 ≤ length file.old }
    ensures { file.new ≡ sets file.old place (bytes_of 4 x) }
{
    file[place..place + 4].copy_from_slice(&x.to_be_bytes());
}

pub fn put_u64(x: u64, file: &mut [u8], place: usize)
    requires { place + 8 ≤ length file.old }
    ensures { file.new ≡ sets file.old place (bytes_of 8 x) }
{
    file[place..place + 8].copy_from_slice(&x.to_be_bytes());
}

pub fn u8_at(file: &[u8], place: usize) -> u32
    requires { place < length file.now }
    ensures { result ≡ number_at place 1 file.now }
{
    u32::from(file[place])
}

pub fn u16_at(file: &[u8], place: usize) -> u32
    requires { place + 2 ≤ length file.now }
    ensures { result ≡ number_at place 2 file.now }
{
    u32::from(u16::from_be_bytes([file[place], file[place + 1]]))
}

pub fn u32_at(file: &[u8], place: usize) -> u32
    requires { place + 4 ≤ length file.now }
    ensures { result ≡ number_at place 4 file.now }
{
    u32::from_be_bytes([
        file[place],
        file[place + 1],
        file[place + 2],
        file[place + 3],
    ])
}

pub fn u64_at(file: &[u8], place: usize) -> u64
    requires { place + 8 ≤ length file.now }
    ensures { result ≡ number_at place 8 file.now }
{
    u64::from(u32_at(file, place)) * 4294967296 + u64::from(u32_at(file, place + 4))
}
