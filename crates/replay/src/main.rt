// Replays a script of calls on a shelf: a line for each call, then the shelf (specs/Transcript.antt).
#![tactic(auto)]

ghost use Rattle.std.specs.Prelude.{◌≡◌, ◌+◌, ◌*◌, ◌^◌, ◌≤◌, ◌<◌, ℕ, List, length, take, drop, replicate, OnOk, IfSome};
ghost use Rattle.std.specs.Io.KnownBytes.{Appends, Consumes};
ghost use Rattle.replay.specs.Transcript.{all_turns, with_shelf, transcript};

use input::read_all;
use script::sequence::Operations;
use std::io;
use std::io::{Read, Write};
use transcript::contents;
use transcript::turn::turn;
use words::le;

// The longest script, and the largest shelf.
const MOST: usize = 262144;

// Room for a script, and for one byte more: a longer script is told by it.
const ROOM: usize = MOST + 1;

// Room for a line that shows all bytes of the largest shelf.
const WIDE: usize = 160 + 2 * MOST;

// The operations of a script, until it ends or stops.
fn operations<W: Write>(
    script: &[u8],
    shelf: &mut [u8],
    out: &mut [u8],
    writer: &mut W,
) -> io::Result<()>
    requires { 160 + 2 * length shelf.old ≤ length out.old }
    ensures shelf_after { OnOk result (shelf.new ≡ (all_turns script.now shelf.old).shelf) }
    ensures written { OnOk result (Appends (W.contents writer.old) (W.contents writer.new)
        (all_turns script.now shelf.old).line) }
{
    for item in Operations::of(script) {
        let n = turn(item.map(Some), shelf, out);
        writer.write_all(&out[..n])?;
    }
    Ok(())
}

// The operations of a script on a shelf, and the shelf's line, with room for a line of N bytes.
fn replay_in<W: Write, const N: usize>(
    script: &[u8],
    shelf: &mut [u8],
    writer: &mut W,
) -> io::Result<()>
    requires has_room { 160 + 2 * length shelf.old ≤ N }
    requires fits { N < 2 ^ 63 }
    ensures { OnOk result (Appends (W.contents writer.old) (W.contents writer.new)
        (with_shelf (all_turns script.now shelf.old))) }
{
    let mut out = [0u8; N];
    operations(script, shelf, &mut out, writer)?;
    let n = contents::shelf(shelf, &mut out);
    writer.write_all(&out[..n])
}

// The operations of a script on a shelf, and the shelf's line.
fn replay<W: Write>(script: &[u8], shelf: &mut [u8], writer: &mut W) -> io::Result<()>
    requires shelf_len_bound { length shelf.old ≤ 262144 }
    ensures { OnOk result (Appends (W.contents writer.old) (W.contents writer.new)
        (with_shelf (all_turns script.now shelf.old))) }
{
    replay_in::<W, WIDE>(script, shelf, writer)
}

// The same on a new shelf, the first bytes of N that are 0xAA.
fn replay_on_new<W: Write, const N: usize>(
    script: &[u8],
    capacity: usize,
    writer: &mut W,
) -> io::Result<()>
    requires shelf_len_bound { capacity ≤ 262144 }
    requires has_room { capacity ≤ N }
    requires fits { N < 2 ^ 63 }
    ensures { OnOk result (Appends (W.contents writer.old) (W.contents writer.new)
        (with_shelf (all_turns script.now (replicate capacity 0xAA)))) }
{
    let mut shelf = [0xAAu8; N];
    replay(script, &mut shelf[..capacity], writer)
}

// A whole script.
fn run<W: Write>(script: &[u8], writer: &mut W) -> io::Result<()>
    ensures { OnOk result (Appends (W.contents writer.old) (W.contents writer.new) (transcript script.now)) }
{
    if MOST < script.len() {
        return writer.write_all(b"script\n");
    }
    if script.len() < 4 {
        return writer.write_all(b"truncated\n");
    }
    let capacity = le::number::<4>(script, 0) as usize;
    if MOST < capacity {
        return writer.write_all(b"capacity\n");
    }
    replay_on_new::<W, MOST>(&script[4..], capacity, writer)
}

// Reads N bytes at most, and replays them.
fn replay_first<R: Read, W: Write, const N: usize>(reader: &mut R, writer: &mut W) -> io::Result<()>
    requires { N < 2 ^ 63 }
    ensures written { OnOk result (IfSome (R.remaining reader.old) (λ input.
        Appends (W.contents writer.old) (W.contents writer.new) (transcript (take N input)))) }
    ensures taken { (bs : List ℕ) × Consumes (R.remaining reader.old) (R.remaining reader.new) bs }
{
    let mut buffer = [0u8; N];
    let n = read_all(reader, &mut buffer)?;
    run(&buffer[..n], writer)
}

// Replays what the reader gives. Of what was written before an error nothing is said. The reader loses bytes from its
// front alone, also where an error comes.
pub fn replay_all<R: Read, W: Write>(reader: &mut R, writer: &mut W) -> io::Result<()>
    ensures written { OnOk result (IfSome (R.remaining reader.old) (λ input.
        Appends (W.contents writer.old) (W.contents writer.new) (transcript input))) }
    ensures taken { (bs : List ℕ) × Consumes (R.remaining reader.old) (R.remaining reader.new) bs }
{
    replay_first::<R, W, ROOM>(reader, writer)
}

fn main(rt: HostRuntime) -> io::Result<()> {
    replay_all(&mut rt.stdin(), &mut rt.stdout())
}
