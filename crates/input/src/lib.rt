// The bytes of a stream, read to its end.
#![tactic(auto)]

ghost use Rattle.std.specs.Prelude.{◌≡◌, ◌≤◌, ◌<◌, ℕ, length, take, drop, IfOk, IfSome, OnErr};
ghost use Rattle.std.specs.Io.KnownBytes.{Consumes, IsAtEnd, ReadConsumes};
ghost use Rattle.input.specs.Input.{Within, Brought, ChangesFirst};

use std::io;
use std::io::Read;
use words::copy::lay;

// A read goes by way of so many bytes.
const CHUNK: usize = 4096;

// One read of at most so many bytes to the start of the chunk. 0 bytes are read at the end of the stream.
fn read_chunk<R: Read>(reader: &mut R, chunk: &mut [u8], most: usize) -> io::Result<usize>
    requires { most ≤ length chunk.old }
    ensures within { Within result most }
    ensures next { ReadConsumes (R.remaining reader.old) (R.remaining reader.new) result (take most chunk.new) }
{
    reader.read(&mut chunk[..most])
}

// One read into the bytes from place at on; those before it stay, and all stay where it fails. It goes by way of a
// chunk: a read does not promise that what lies behind the bytes read stays.
fn read_some<R: Read>(reader: &mut R, bytes: &mut [u8], at: usize) -> io::Result<usize>
    requires { at ≤ length bytes.old }
    ensures brought { Brought result (drop at bytes.old) (drop at bytes.new) }
    ensures head { take at bytes.new ≡ take at bytes.old }
    ensures next { ReadConsumes (R.remaining reader.old) (R.remaining reader.new) result (drop at bytes.new) }
    ensures err { OnErr result (bytes.new ≡ bytes.old) }
{
    let mut chunk = [0u8; CHUNK];
    let most = (bytes.len() - at).min(CHUNK);
    let n = read_chunk(reader, &mut chunk, most)?;
    lay(&chunk[..n], bytes, at);
    Ok(n)
}

// Reads until the stream ends or the bytes are full. What was read stands at their start.
pub fn read_all<R: Read>(reader: &mut R, bytes: &mut [u8]) -> io::Result<usize>
    ensures brought { Brought result bytes.old bytes.new }

    // Where the stream's bytes are known: these are its next ones, in their order. They are fewer than there is room
    // for only at its end.
    ensures next { IfOk result (λ n. Consumes (R.remaining reader.old) (R.remaining reader.new) (take n bytes.new)) }
    ensures end { IfOk result (λ n. n < length bytes.old → IsAtEnd (R.remaining reader.new)) }
    ensures first { IfOk result (λ n. IfSome (R.remaining reader.old)
        (λ xs. take n bytes.new ≡ take (length bytes.old) xs)) }

    // Where a read fails, what was read before it stands at the start, and the stream has lost no other byte.
    ensures err { OnErr result ((n : ℕ) × ChangesFirst n bytes.old bytes.new
        × Consumes (R.remaining reader.old) (R.remaining reader.new) (take n bytes.new)) }
{
    let mut n = 0;
    // `read_exact` and `read_to_end` do not say what a failed read leaves.
    while n < bytes.len() {
        let more = read_some(reader, bytes, n)?;
        if more == 0 {
            return Ok(n);
        }
        n += more;
    }
    Ok(n)
}
