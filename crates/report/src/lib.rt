// The line that is printed for a verdict, and for an input (specs/Line.antt).
#![tactic(auto)]

ghost use Rattle.std.specs.Prelude.{◌≡◌, ℕ, ◌++◌, ◌≤◌, length, take, drop};
ghost use Rattle.screening.specs.Answers.{number_of};
ghost use Rattle.restrictive.specs.Answers.{verdict_of};
ghost use Rattle.restrictive.specs.Verdict.{refused, breaks, verdict};
ghost use Rattle.report.specs.Line.{line, judged_bytes, line_of};
ghost use Rattle.report.specs.Told.{numbers_of, told_of};

pub mod told;

use crate::told::{Numbers, Told};
use restrictive::Verdict;
use restrictive::call::check;
use screening::Rejection;
use text::line::Line;
use words::copy::lay;

// How long a line can be: five numbers have 20 digits each at most, and the words around them 30 bytes.
pub const LINE: usize = 160;

// An input is judged by so many bytes at most.
pub const JUDGED: usize = 65536;

fn refusal(r: Rejection, out: &mut [u8; LINE]) -> usize
    ensures value { result ≡ length (line (refused (number_of r))) }
    ensures out_after { out.new ≡ line (refused (number_of r)) ++ drop result out.old }
{
    let mut line = Line::over(out);
    line.labelled(b"refused ", r.number() as usize);
    line.word(b"\n");
    line.at
}

// Writes the line of a break with these numbers to the start of out, and answers its length. The rest of out stays. The
// line does not tell a level.
pub fn break_line(rule: usize, event: usize, s: usize, t: usize, u: usize, out: &mut [u8]) -> usize
    requires { 130 ≤ length out.old }
    ensures value { (l : ℕ) → result
        ≡ length (line (breaks (record { level = l; rule = rule; event = event; s = s; t = t; u = u }))) }
    ensures out_after { (l : ℕ) → out.new
        ≡ line (breaks (record { level = l; rule = rule; event = event; s = s; t = t; u = u })) ++ drop result out.old }
{
    let mut line = Line::over(out);
    line.labelled(b"rule ", rule);
    line.labelled(b" event ", event);
    line.labelled(b" from ", s);
    line.labelled(b" to ", t);
    line.labelled(b" other ", u);
    line.word(b"\n");
    line.at
}

// Writes the line of a break to the start of out, and answers its length. The rest of out stays.
pub fn violation(n: Numbers, out: &mut [u8]) -> usize
    requires { 130 ≤ length out.old }
    ensures value { result ≡ length (line (breaks (numbers_of n))) }
    ensures out_after { out.new ≡ line (breaks (numbers_of n)) ++ drop result out.old }
{
    break_line(n.rule, n.event, n.s, n.t, n.u, out)
}

// Writes the verdict's line to the start of out, and answers its length. The rest of out stays.
pub fn line(told: Told, out: &mut [u8; LINE]) -> usize
    ensures value { result ≡ length (line (told_of told)) }
    ensures out_after { out.new ≡ line (told_of told) ++ drop result out.old }
{
    match told {
        Told::Pass => lay(b"pass\n", out, 0),
        Told::Refused(r) => refusal(r, out),
        Told::Break(n) => violation(n, out),
    }
}

// The verdict on the first bytes of an input.
fn judge(input: &[u8]) -> Verdict
    ensures { verdict_of result ≡ verdict (take judged_bytes input.now) }
{
    check(&input[..JUDGED.min(input.len())])
}

// Writes the line of an input to the start of out, and answers its length. The rest of out stays.
pub fn line_of(input: &[u8], out: &mut [u8; LINE]) -> usize
    ensures value { result ≡ length (line_of input.now) }
    ensures out_after { out.new ≡ line_of input.now ++ drop result out.old }
{
    line(Told::from(judge(input)), out)
}
