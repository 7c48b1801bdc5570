// A line that is written over a buffer from its start on.
ghost use Rattle.std.specs.Prelude.{◌≡◌, ◌+◌, ◌*◌, ◌≤◌, ◌++◌, length};
ghost use Rattle.text.specs.Decimal.{decimal};
ghost use Rattle.text.specs.Hex.{hex};
ghost use Rattle.words.specs.Laid.{Laid};

use crate::hex::hex_digit;
use itoa::Buffer;
use words::copy::lay;

// The buffer, and how many of its bytes are written.
#[derive(Drop)]
pub struct Line<'a> {
    pub out: &'a mut [u8],
    pub at: usize,
}

impl<'a> Line<'a> {
    pub fn over(out: &'a mut [u8]) -> Line<'a>
        ensures same_reference { result.out.ghost_name ≡ out.entry.ghost_name }
        ensures out { result.out.now ≡ out.old }
        ensures at { result.at ≡ 0 }
    {
        Line { out, at: 0 }
    }

    pub fn word(&mut self, bytes: &[u8])
        requires { self.old.at + length bytes.now ≤ length self.old.out.now }
        ensures same_reference { self.new.out.ghost_name ≡ self.old.out.ghost_name }
        ensures laid { Laid self.old.out.now self.old.at bytes.now self.new.out.now self.new.at }
        ensures room { length self.new.out.now ≡ length self.old.out.now }
    {
        self.at = lay(bytes, self.out, self.at);
    }

    pub fn number(&mut self, n: usize)
        requires { self.old.at + 20 ≤ length self.old.out.now }
        ensures same_reference { self.new.out.ghost_name ≡ self.old.out.ghost_name }
        ensures laid { Laid self.old.out.now self.old.at (decimal n) self.new.out.now self.new.at }
        ensures room { length self.new.out.now ≡ length self.old.out.now }
        ensures upper_bound { self.new.at ≤ self.old.at + 20 }
    {
        let mut buffer = Buffer::new();
        let digits = buffer.format(n).as_bytes();
        self.word(digits);
    }

    // The word, and then n in decimal.
    pub fn labelled(&mut self, word: &[u8], n: usize)
        requires { self.old.at + length word.now + 20 ≤ length self.old.out.now }
        ensures same_reference { self.new.out.ghost_name ≡ self.old.out.ghost_name }
        ensures laid { Laid self.old.out.now self.old.at (word.now ++ decimal n) self.new.out.now self.new.at }
        ensures room { length self.new.out.now ≡ length self.old.out.now }
        ensures upper_bound { self.new.at ≤ self.old.at + length word.now + 20 }
    {
        self.word(word);
        self.number(n);
    }

    // Two digits for each byte.
    pub fn hex(&mut self, bytes: &[u8])
        requires { self.old.at + 2 * length bytes.now ≤ length self.old.out.now }
        ensures same_reference { self.new.out.ghost_name ≡ self.old.out.ghost_name }
        ensures laid { Laid self.old.out.now self.old.at (hex bytes.now) self.new.out.now self.new.at }
        ensures room { length self.new.out.now ≡ length self.old.out.now }
    {
        for &b in bytes {
            self.word(&[hex_digit(b / 16), hex_digit(b % 16)]);
        }
    }
}
