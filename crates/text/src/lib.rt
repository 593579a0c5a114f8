// A text that is built in a lent buffer: each call writes from `at` on and answers where the text then ends.
#![tactic(auto)]

ghost use Rattle.std.specs.Prelude.{◌≡◌, ◌++◌, ◌+◌, ◌≤◌, ◌%◌, length};
ghost use Rattle.text.specs.Text.{decimal, hex_digit, hex, field, refusal_line, Written};

#[tactic(auto, using(crate::proofs::Texts::stored))]
pub fn put(text: &mut [u8], at: usize, word: &[u8]) -> usize
    requires { at + length word.now ≤ length text.old }
    ensures value { result ≡ at + length word.now }
    ensures written { Written text.old at word.now result text.new }
{
    let end = at + word.len();
    text[at..end].copy_from_slice(word);
    end
}

// A number in decimal, without leading zeros.
pub fn put_decimal(text: &mut [u8], at: usize, n: u64) -> usize
    requires { at + 20 ≤ length text.old }
    ensures upper_bound { result ≤ at + 20 }
    ensures written { Written text.old at (decimal n) result text.new }
{
    let mut digits = [0u8; 20];
    let mut rest = n;
    for first in (0..20usize).rev() {
        digits[first] = b'0' + (rest % 10) as u8;
        rest /= 10;
        if rest == 0 {
            return put(text, at, &digits[first..]);
        }
    }
    put(text, at, &digits)
}

// A number and a blank.
pub fn put_field(text: &mut [u8], at: usize, n: u64) -> usize
    requires { at + 21 ≤ length text.old }
    ensures upper_bound { result ≤ at + 21 }
    ensures written { Written text.old at (field n) result text.new }
{
    let end = put_decimal(text, at, n);
    put(text, end, b" ")
}

// A word, with its blanks, and a number.
pub fn put_count(text: &mut [u8], at: usize, word: &[u8], n: u64) -> usize
    requires { at + length word.now + 20 ≤ length text.old }
    ensures upper_bound { result ≤ at + length word.now + 20 }
    ensures written { Written text.old at (word.now ++ decimal n) result text.new }
{
    let end = put(text, at, word);
    put_decimal(text, end, n)
}

// The line of a store that is refused.
pub fn put_refusal(text: &mut [u8], at: usize, answer: u8) -> usize
    requires { at + 40 ≤ length text.old }
    ensures upper_bound { result ≤ at + 40 }
    ensures written { Written text.old at (refusal_line answer) result text.new }
{
    let end = put_count(text, at, b"store refused ", answer as u64);
    put(text, end, b"\n")
}

// An upper-case hex digit, of the lowest four bits.
fn hex_digit(value: u16) -> u8
    ensures { result ≡ hex_digit (value % 16) }
{
    let digit = (value % 16) as u8;
    if digit < 10 {
        return b'0' + digit;
    }
    b'A' - 10 + digit
}

// Four upper-case hex digits.
pub fn put_hex(text: &mut [u8], at: usize, value: u16) -> usize
    requires { at + 4 ≤ length text.old }
    ensures value { result ≡ at + 4 }
    ensures written { Written text.old at (hex value) result text.new }
{
    let digits = [
        hex_digit(value / 4096),
        hex_digit(value / 256),
        hex_digit(value / 16),
        hex_digit(value),
    ];
    put(text, at, &digits)
}
