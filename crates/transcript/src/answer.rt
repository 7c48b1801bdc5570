// The line of a call's answer (specs/Lines.antt).
ghost use Rattle.std.specs.Prelude.{◌≡◌, ◌++◌, ◌≤◌, length, drop};
ghost use Rattle.text.specs.Decimal.{decimal};
ghost use Rattle.report.specs.Line.{line_end};
ghost use Rattle.transcript.specs.Lines.{answer_line};
ghost use Rattle.transcript.specs.Told.{told_of};

use crate::told::Told;
use report::violation;
use text::line::Line;

// Writes a line of the words and of n in decimal to the start of out, and answers its length. The rest of out stays.
pub fn numbered(words: &[u8], n: usize, out: &mut [u8]) -> usize
    requires words_len_bound { length words.now ≤ 32 }
    requires in_bounds { 160 ≤ length out.old }
    ensures value { result ≡ length (words.now ++ decimal n ++ line_end) }
    ensures out_after { out.new ≡ (words.now ++ decimal n ++ line_end) ++ drop result out.old }
{
    let mut line = Line::over(out);
    line.labelled(words, n);
    line.word(b"\n");
    line.at
}

// Writes the answer's line to the start of out, and answers its length. The rest of out stays. The word stands before
// a number that the answer gives.
pub fn line(word: &[u8], told: Told, out: &mut [u8]) -> usize
    requires word_len_bound { length word.now ≤ 32 }
    requires in_bounds { 160 ≤ length out.old }
    ensures value { result ≡ length (answer_line word.now (told_of told)) }
    ensures out_after { out.new ≡ answer_line word.now (told_of told) ++ drop result out.old }
{
    match told {
        Told::Gives(n) => numbered(word, n, out),
        Told::Refused(k) => numbered(b"refused ", k, out),
        Told::Clash(e) => numbered(b"refused 10 identifier ", e, out),
        Told::Breaks(n) => violation(n, out),
    }
}
