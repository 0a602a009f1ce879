// Which interface the archive has, for a program that was compiled with a header and is linked with a library.
ghost use Rattle.std.specs.Prelude.{◌≡◌};

// HLQ_INTERFACE of prowcurl.h: tests/boundary.py holds the promise against it.
pub const INTERFACE: u32 = 14;

#[unsafe(no_mangle)]
pub extern "C" fn hlq_interface() -> u32
    ensures { result ≡ 14 }
{
    INTERFACE
}
