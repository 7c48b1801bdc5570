// One operation of a replay (specs/Turn.antt).
ghost use Rattle.std.specs.Prelude.{◌≡◌, ◌++◌, ◌+◌, ◌*◌, ◌≤◌, length, drop};
ghost use Rattle.script.specs.Answers.{operation_of_call, operation_of, read_of};
ghost use Rattle.transcript.specs.Turn.{turn};

use crate::answer::line;
use crate::contents;
use crate::told::Told;
use batch::perform::perform;
use script::operation::{Call, Operation, Stop};
use store::reading::{count, part};
use words::copy::lay;

// Makes a call of the script.
fn called(call: Call<'_>, shelf: &mut [u8], out: &mut [u8]) -> usize
    requires { 160 ≤ length out.old }
    ensures value { result ≡ length (turn (operation_of_call call.entry) shelf.old).line }
    ensures out_after { out.new ≡ (turn (operation_of_call call.entry) shelf.old).line ++ drop result out.old }
    ensures shelf_after { shelf.new ≡ (turn (operation_of_call call.entry) shelf.old).shelf }
{
    let a = Told::from(perform(call, shelf));
    match call {
        Call::Clear => line(b"", a, out),
        Call::Load(_) => line(b"part ", a, out),
        Call::Hookup(_, _) => line(b"part ", a, out),
    }
}

// Does an operation.
fn done(operation: Operation<'_>, shelf: &mut [u8], out: &mut [u8]) -> usize
    requires { 160 + 2 * length shelf.old ≤ length out.old }
    ensures value { result ≡ length (turn (operation_of operation.entry) shelf.old).line }
    ensures out_after { out.new ≡ (turn (operation_of operation.entry) shelf.old).line ++ drop result out.old }
    ensures shelf_after { shelf.new ≡ (turn (operation_of operation.entry) shelf.old).shelf }
{
    match operation {
        Operation::Call(call) => called(call, shelf, out),
        Operation::Count => line(b"count ", Told::from(count(shelf)), out),
        Operation::Part(i) => contents::part(part(shelf, i), out),
    }
}

// Does what was read of a script: an operation, nothing at its end, or telling why none can be read. Writes its line to
// the start of out, and answers its length; the rest of out stays.
pub fn turn(read: Result<Option<Operation<'_>>, Stop>, shelf: &mut [u8], out: &mut [u8]) -> usize
    requires { 160 + 2 * length shelf.old ≤ length out.old }
    ensures value { result ≡ length (turn (read_of read.entry) shelf.old).line }
    ensures out_after { out.new ≡ (turn (read_of read.entry) shelf.old).line ++ drop result out.old }
    ensures shelf_after { shelf.new ≡ (turn (read_of read.entry) shelf.old).shelf }
{
    match read {
        Ok(None) => 0,
        Ok(Some(operation)) => done(operation, shelf, out),
        Err(Stop::Truncated) => lay(b"truncated\n", out, 0),
        Err(Stop::Unknown) => lay(b"unknown\n", out, 0),
    }
}
