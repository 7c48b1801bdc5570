// Bytes laid over a slice (specs/Laid.antt).
ghost use Rattle.std.specs.Prelude.{◌+◌, ◌≤◌, length};
ghost use Rattle.words.specs.Laid.{Laid};

// Lays the bytes over out from place at on, and answers the place behind them. The loop is compiled to a copy of what does
// not overlap; `copy_from_slice` would be one of what may, and a host that links the library would owe `memmove` too.
pub fn lay(bytes: &[u8], out: &mut [u8], at: usize) -> usize
    requires { at + length bytes.now ≤ length out.old }
    ensures { Laid out.old at bytes.now out.new result }
{
    for (i, &byte) in bytes.iter().enumerate() {
        out[at + i] = byte;
    }
    at + bytes.len()
}
