// Reads standard input and prints its line. Of a longer input only the first bytes are judged: no record is that long,
// so they are refused.
#![tactic(auto)]

ghost use Rattle.std.specs.Prelude.{◌^◌, ◌<◌, ℕ, List, take, OnOk, IfSome};
ghost use Rattle.std.specs.Io.KnownBytes.{Appends, Consumes};
ghost use Rattle.report.specs.Line.{line_of};

use input::read_all;
use report::JUDGED;
use std::io;
use std::io::{Read, Write};

// Writes the line of an input.
fn print<W: Write>(input: &[u8], writer: &mut W) -> io::Result<()>
    ensures { OnOk result (Appends (W.contents writer.old) (W.contents writer.new) (line_of input.now)) }
{
    let mut out = [0u8; report::LINE];
    let n = report::line_of(input, &mut out);
    writer.write_all(&out[..n])
}

// Reads N bytes at most, and writes their line. `replay` has the same four lines over its own work: one function for both
// would take that as a closure over the writer, with a contract longer than they are.
fn judge<R: Read, W: Write, const N: usize>(reader: &mut R, writer: &mut W) -> io::Result<()>
    requires { N < 2 ^ 63 }
    ensures written { OnOk result (IfSome (R.remaining reader.old) (λ input.
        Appends (W.contents writer.old) (W.contents writer.new) (line_of (take N input)))) }
    ensures taken { (bs : List ℕ) × Consumes (R.remaining reader.old) (R.remaining reader.new) bs }
{
    let mut buffer = [0u8; N];
    let n = read_all(reader, &mut buffer)?;
    print(&buffer[..n], writer)
}

// Writes the line of what the reader gives. Of what was written before an error nothing is said. The reader loses bytes
// from its front alone, also where an error comes.
pub fn run<R: Read, W: Write>(reader: &mut R, writer: &mut W) -> io::Result<()>
    ensures written { OnOk result (IfSome (R.remaining reader.old) (λ input.
        Appends (W.contents writer.old) (W.contents writer.new) (line_of input))) }
    ensures taken { (bs : List ℕ) × Consumes (R.remaining reader.old) (R.remaining reader.new) bs }
{
    judge::<R, W, JUDGED>(reader, writer)
}

fn main(rt: HostRuntime) -> io::Result<()> {
    run(&mut rt.stdin(), &mut rt.stdout())
}
