// A replay script's operations (specs/Operation.antt).
#![tactic(auto)]

ghost use Rattle.std.specs.Prelude.{◌≡◌, ◌+◌, ◌<◌, ◌≤◌, ◌^◌, length, IfOk, IfSome, MatchResult};
ghost use Rattle.words.specs.LittleEndian.{byte, number};
ghost use Rattle.script.specs.Operation.{load, truncated, load_of, operation, size};
ghost use Rattle.script.specs.Answers.{operation_of, stop_of, read_of};

use crate::operation::{Call, Operation, Stop};
use words::le;

pub mod operation;
pub mod sequence;

// The number in the four bytes from a place on.
fn number(s: &[u8], at: usize) -> Result<usize, Stop>
    requires { at < 2 ^ 32 }
    ensures { MatchResult result (λ n. (at + 4 ≤ length s.now) × (n ≡ number 4 s.now at) × (n < 2 ^ 32))
        (λ e. (e ≡ Stop.Truncated) × (length s.now < at + 4)) }
{
    if s.len() < at + 4 {
        return Err(Stop::Truncated);
    }
    Ok(le::number::<4>(s, at) as usize)
}

// Load's record, behind its length.
#[tactic(auto, using(crate::proofs::Operations::readings))]
fn record(s: &[u8]) -> Result<&[u8], Stop>
    ensures { MatchResult result (λ r. load_of s.now ≡ load r.now)
        (λ e. (e ≡ Stop.Truncated) × (load_of s.now ≡ truncated)) }
{
    let n = number(s, 1)?;
    s.get(5..5 + n).ok_or(Stop::Truncated)
}

// The operation with this first byte.
#[tactic(auto, using(crate::proofs::Operations::kinds), unfolding(crate::specs::Answers::operation_of, crate::specs::Answers::operation_of_call, crate::specs::Answers::stop_of))]
fn of_kind(kind: u8, s: &[u8]) -> Result<Operation<'_>, Stop>
    requires some_byte { 1 ≤ length s.now }
    requires first { kind ≡ byte s.now 0 }
    ensures { MatchResult result (λ o. operation_of o ≡ operation s.now) (λ e. stop_of e ≡ operation s.now) }
{
    match kind {
        0 => Ok(Operation::Call(Call::Clear)),
        1 => Ok(Operation::Call(Call::Load(record(s)?))),
        2 => Ok(Operation::Call(Call::Hookup(number(s, 1)?, number(s, 5)?))),
        3 => Ok(Operation::Count),
        4 => Ok(Operation::Part(number(s, 1)?)),
        _ => Err(Stop::Unknown),
    }
}

// The operation at the start of some bytes; none, where no byte is left.
#[tactic(auto, using(crate::proofs::Operations::starts), unfolding(crate::specs::Answers::read_of))]
pub fn decode(s: &[u8]) -> Result<Option<Operation<'_>>, Stop>
    ensures value { read_of result ≡ operation s.now }
    ensures within { IfOk result (λ o. IfSome o (λ p. size (operation_of p) ≤ length s.now)) }
{
    let Some(&kind) = s.first() else {
        return Ok(None);
    };
    Ok(Some(of_kind(kind, s)?))
}
