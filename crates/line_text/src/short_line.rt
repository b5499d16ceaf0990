//! Lines of text that are put together from their last byte to their first.

use itoa::write_digits;
use std::marker::Model;

/// The most bytes of a line.
const LONGEST: usize = 160;

/// The end of a line: its bytes from some place on, in a buffer of its own. Numbers are written
/// from their last digit to their first, so a line that is put together in the same order moves no
/// digits.
#[derive(Drop)]
pub struct ShortLine {
    bytes: [u8; LONGEST],
    start: usize,
}

impl Model for ShortLine {
    ghost use Rattle.std.specs.Prelude.{◌≤◌, List, ℕ, drop};

    ghost Value = { List ℕ };

    ghost view = { λ a. drop a.start a.bytes };

    ghost invariant = { λ a. a.start ≤ 160 };
}

impl ShortLine {
    ghost use Rattle.std.specs.Prelude.{◌≡◌, ◌+◌, ◌≤◌, ◌++◌, codes, length};
    ghost use Rattle.std.specs.Fmt.{decimal};

    /// The line break.
    #[inline(always)]
    pub fn new() -> ShortLine
        ensures { result ≡ codes "\n" }
    {
        ShortLine {
            bytes: [b'\n'; LONGEST],
            start: LONGEST - 1,
        }
    }

    /// Prepends a text. Requires room for it.
    #[inline(always)]
    pub fn prepend(&mut self, text: &[u8])
        requires { length text.now + length self.old ≤ 160 }
        ensures { self.new ≡ text.now ++ self.old }
    {
        let end = self.start;
        let start = end - text.len();
        self.bytes[start..end].copy_from_slice(text);
        self.start = start;
    }

    /// Prepends the decimal digits of a number. Requires room for twenty.
    #[inline(always)]
    pub fn prepend_number(&mut self, number: u64)
        requires { 20 + length self.old ≤ 160 }
        ensures digits { self.new ≡ decimal number ++ self.old }
        ensures short { length self.new ≤ 20 + length self.old }
    {
        self.start = write_digits(number, &mut self.bytes, self.start);
    }

    /// The bytes so far.
    #[inline(always)]
    pub fn bytes(&self) -> &[u8]
        ensures { result.now ≡ self.now }
    {
        &self.bytes[self.start..]
    }
}
