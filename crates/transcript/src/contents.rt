// The lines with bytes in them (specs/Lines.antt). Each function writes a line to the start of out and answers its
// length; the rest of out stays.
ghost use Rattle.std.specs.Prelude.{◌≡◌, ◌++◌, ◌+◌, ◌*◌, ◌≤◌, length, drop};
ghost use Rattle.words.specs.Laid.{Laid};
ghost use Rattle.transcript.specs.Lines.{shown, part_line, shelf_line};

use text::line::Line;

// A space and the bytes, where there are any.
fn show(bytes: &[u8], line: &mut Line<'_>)
    requires { line.old.at + (1 + 2 * length bytes.now) ≤ length line.old.out.now }
    ensures same_reference { line.new.out.ghost_name ≡ line.old.out.ghost_name }
    ensures laid { Laid line.old.out.now line.old.at (shown bytes.now) line.new.out.now line.new.at }
    ensures room { length line.new.out.now ≡ length line.old.out.now }
{
    if bytes.is_empty() {
        return;
    }
    line.word(b" ");
    line.hex(bytes);
}

// What Part gives.
pub fn part(bytes: &[u8], out: &mut [u8]) -> usize
    requires { 64 + 2 * length bytes.now ≤ length out.old }
    ensures value { result ≡ length (part_line bytes.now) }
    ensures out_after { out.new ≡ part_line bytes.now ++ drop result out.old }
{
    let mut line = Line::over(out);
    line.labelled(b"part bytes ", bytes.len());
    show(bytes, &mut line);
    line.word(b"\n");
    line.at
}

// The whole shelf.
pub fn shelf(bytes: &[u8], out: &mut [u8]) -> usize
    requires { 64 + 2 * length bytes.now ≤ length out.old }
    ensures value { result ≡ length (shelf_line bytes.now) }
    ensures out_after { out.new ≡ shelf_line bytes.now ++ drop result out.old }
{
    let mut line = Line::over(out);
    line.word(b"shelf ");
    line.hex(bytes);
    line.word(b"\n");
    line.at
}
