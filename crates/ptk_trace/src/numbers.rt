//! A number in decimal, and a word to base 16.

ghost use Rattle.std.specs.Prelude.{◌≡◌, ◌<◌, Some, IsAscii, decimal};
ghost use Rattle.ptk_words_model.specs.Text.{hex_digit, hex_digits, hex_word};

use itoa::Buffer;
use std::{fmt, str};

/// A number, shown in decimal without leading zeros.
#[derive(Clone, Copy)]
pub struct Decimal(pub u64);

impl fmt::Display for Decimal {
    ghost output = { λ n. Some (decimal n.0) };

    fn fmt<W: fmt::Write>(&self, f: &mut fmt::Formatter<W>) -> fmt::Result {
        let mut buffer = Buffer::new();
        f.write_str(buffer.format(self.0))
    }
}

/// A word, shown as `0x` and eight digits to base 16 in lower case.
#[derive(Clone, Copy)]
pub struct Word(pub u32);

impl fmt::Display for Word {
    ghost output = { λ w. Some (hex_word w.0) };

    fn fmt<W: fmt::Write>(&self, f: &mut fmt::Formatter<W>) -> fmt::Result {
        f.write_str("0x")?;
        f.write_str(text_of(&word_digits(self.0)))
    }
}

// The digits as a text.
fn text_of(digits: &[u8; 8]) -> &str
    requires { IsAscii digits.now }
    ensures { result.now ≡ digits.now }
{
    unsafe { str::from_utf8_unchecked(digits) }
}

// A digit to base 16.
fn digit(n: u32) -> u8
    requires { n < 16 }
    ensures digit { result ≡ hex_digit n }
    ensures ascii { result < 128 }
{
    if n < 10 {
        b'0' + n as u8
    } else {
        b'a' + (n - 10) as u8
    }
}

// The eight digits of a word to base 16.
fn word_digits(word: u32) -> [u8; 8]
    ensures digits { result ≡ hex_digits 8 word }
    ensures ascii { IsAscii result }
{
    [
        digit(word / 0x1000_0000 % 16),
        digit(word / 0x100_0000 % 16),
        digit(word / 0x10_0000 % 16),
        digit(word / 0x1_0000 % 16),
        digit(word / 0x1000 % 16),
        digit(word / 0x100 % 16),
        digit(word / 0x10 % 16),
        digit(word % 16),
    ]
}
