//! The version of the library. `include/drain.h` declares it.

ghost use Rattle.std.specs.Prelude.{◌≡◌, ◌-◌, ◌++◌, length, replicate, take};

use drain_answer::VERSION;

/// Writes the version, as the program `drain` prints it behind its name, as far as there is room, and zeros behind it:
/// how many bytes it has.
#[unsafe(no_mangle)]
pub extern "C" fn drain_version(text: &mut [u8]) -> usize
    ensures text { text.new ≡ take (length text.old) VERSION.now ++ replicate (length text.old - length VERSION.now) 0 }
    ensures length { result ≡ length VERSION.now }
{
    let version = VERSION.as_bytes();
    let written = version.len().min(text.len());
    text[..written].copy_from_slice(&version[..written]);
    text[written..].fill(0);
    version.len()
}
