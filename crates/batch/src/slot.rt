// An answer as eight numbers of eight bytes each (specs/Slots.antt).
ghost use Rattle.std.specs.Prelude.{◌≡◌, ◌+◌, ◌≤◌, length};
ghost use Rattle.words.specs.Laid.{over};
ghost use Rattle.words.specs.LittleEndian.{as_words};
ghost use Rattle.store.specs.Answers.{answer_of, refusal_of};
ghost use Rattle.batch.specs.Slots.{numbers};

use store::answer::Refusal;
use words::le;

// What the first number says of the others.
enum Tag {
    Number = 0,
    Refused = 1,
    Clash = 2,
    Break = 3,
}

fn refused(refusal: Refusal) -> [u64; 8]
    ensures { result ≡ numbers (refusal_of refusal) }
{
    match refusal {
        Refusal::Breaks(v) => [
            Tag::Break as u64,
            v.rule.number() as u64,
            v.event as u64,
            v.s as u64,
            v.t as u64,
            v.u as u64,
            v.level as u64,
            0,
        ],
        Refusal::Clash(e) => [Tag::Clash as u64, e as u64, 0, 0, 0, 0, 0, 0],
        _ => [
            Tag::Refused as u64,
            refusal.number() as u64,
            0,
            0,
            0,
            0,
            0,
            0,
        ],
    }
}

// An answer's eight numbers.
pub fn put_answer(out: &mut [u8], at: usize, answer: Result<usize, Refusal>)
    requires { at + 64 ≤ length out.old }
    ensures { out.new ≡ over out.old at (as_words (numbers (answer_of answer))) }
{
    let numbers = match answer {
        Ok(n) => [Tag::Number as u64, n as u64, 0, 0, 0, 0, 0, 0],
        Err(refusal) => refused(refusal),
    };
    le::put_words(out, at, &numbers);
}
