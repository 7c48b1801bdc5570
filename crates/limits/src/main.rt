// Joins pairs of parts at the limits of a record, 64 states and 32 entries (document 01, "Examples"), and prints a
// line for each pair (specs/Pairs.antt).
#![tactic(auto)]

ghost use Rattle.std.specs.Prelude.{◌≡◌, ◌+◌, ◌*◌, ◌≤◌, ◌++◌, length, decimal, codes, OnOk};
ghost use Rattle.std.specs.Io.KnownBytes.{Appends};
ghost use Rattle.composite.specs.Joining.{stopped};
ghost use Rattle.composite.specs.Answers.{obstacle_of};
ghost use Rattle.limits.specs.Pairs.{part_over, inputs_over};
ghost use Rattle.limits.specs.Pairs.{line_end, answer_line, pair_line, states_lines, entries_lines};

use composite::answer::{Obstacle, Unjoined};
use join::call::join;
use part::Kind;
use std::io;
use std::io::Write;
use words::le;

// Over zeros: a record with so many states, all of one class, and so many events, whose entries and rows are left as
// they are.
fn put_part(out: &mut [u8], states: u8, events: u8)
    requires { 10 ≤ length out.old }
    ensures { out.new ≡ part_over out.old states events }
{
    let body = out.len() - 6;
    le::put::<4>(out, 0, body as u64);
    le::put::<2>(out, 4, Kind::Single as u64);
    out[7] = states;
    out[9] = events;
}

// Over zeros: a part of one state that stays there at each of its m low inputs. Their identifiers are first, first + 1
// and so on.
fn put_inputs(out: &mut [u8], first: u8, m: u8)
    requires has_room { 11 + 12 * m ≤ length out.old }
    requires m_bound { first + m ≤ 255 }
    ensures { out.new ≡ inputs_over (part_over out.old 1 m) first m m }
{
    put_part(out, 1, m);
    let rows = 11 + 4 * m as usize;
    for i in 0..m {
        out[11 + 4 * i as usize] = first + i;
        out[rows + 8 * i as usize] = 1;
    }
}

// The end of a line: a word and a number.
fn end_line<W: Write>(word: &[u8], n: u64, writer: &mut W) -> io::Result<()>
    ensures { OnOk result (Appends (W.contents writer.old) (W.contents writer.new)
        (word.now ++ decimal n ++ line_end)) }
{
    writer.write_all(word)?;
    writeln!(writer, "{n}")
}

// The end of a line whose pair answers neither: such a line is not in the file stdout.
fn no_record<W: Write>(writer: &mut W) -> io::Result<()>
    ensures { OnOk result (Appends (W.contents writer.old) (W.contents writer.new)
        (codes "no record" ++ line_end)) }
{
    writer.write_all(b"no record\n")
}

fn stopped<W: Write>(o: Obstacle, writer: &mut W) -> io::Result<()>
    ensures { OnOk result (Appends (W.contents writer.old) (W.contents writer.new)
        (answer_line (stopped (obstacle_of o)))) }
{
    match o {
        Obstacle::TooLarge => end_line(b"refused ", 11, writer),
        Obstacle::ObserversDiffer => no_record(writer),
        Obstacle::Clash(_) => no_record(writer),
    }
}

// The line of a pair: the words, and what Join answers. The longest joined record here has 395 bytes.
fn line<'a, W: Write>(words: &[u8], a: &'a [u8], b: &'a [u8], writer: &mut W) -> io::Result<()>
    ensures { OnOk result (Appends (W.contents writer.old) (W.contents writer.new)
        (pair_line words.now a.now b.now)) }
{
    writer.write_all(words)?;
    let mut out = [0u8; 1024];
    match join(a, b, &mut out) {
        Ok(n) => end_line(b"joined ", n as u64, writer),
        Err(Unjoined::Stopped(o)) => stopped(o, writer),
        Err(Unjoined::Unfit(_, _)) => no_record(writer),
        Err(Unjoined::NoRoom) => no_record(writer),
    }
}

fn states<W: Write>(writer: &mut W) -> io::Result<()>
    ensures { OnOk result (Appends (W.contents writer.old) (W.contents writer.new) states_lines) }
{
    let mut most = [0u8; 74];
    put_part(&mut most, 64, 0);
    let mut one = [0u8; 11];
    put_part(&mut one, 1, 0);
    line(b"64 states with 1: ", &most, &one, writer)?;
    let mut two = [0u8; 12];
    put_part(&mut two, 2, 0);
    line(b"64 states with 2: ", &most, &two, writer)
}

fn entries<W: Write>(writer: &mut W) -> io::Result<()>
    ensures { OnOk result (Appends (W.contents writer.old) (W.contents writer.new) entries_lines) }
{
    let mut half = [0u8; 203];
    put_inputs(&mut half, 0, 16);
    let mut rest = [0u8; 203];
    put_inputs(&mut rest, 16, 16);
    line(b"16 entries with 16: ", &half, &rest, writer)?;
    let mut more = [0u8; 215];
    put_inputs(&mut more, 16, 17);
    line(b"16 entries with 17: ", &half, &more, writer)
}

// The lines of all pairs. Of what was written before an error nothing is said.
pub fn run<W: Write>(writer: &mut W) -> io::Result<()>
    ensures { OnOk result (Appends (W.contents writer.old) (W.contents writer.new) (states_lines ++ entries_lines)) }
{
    states(writer)?;
    entries(writer)
}

fn main(rt: HostRuntime) -> io::Result<()> {
    run(&mut rt.stdout())
}
