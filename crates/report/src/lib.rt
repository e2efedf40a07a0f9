//! Text, written into a buffer that the caller lends: a byte, bytes as they stand, bytes in hexadecimal, a number in decimal, both as
//! words of a line, the line of an answer. Each takes the buffer and the place, and gives the place behind what it wrote; text that has no
//! room is cut.
#![tactic(auto)]

ghost use Rattle.std.specs.Prelude.{◌≡◌, [], ◌∷◌, ◌<◌, ◌/◌, ◌%◌};
ghost use Rattle.report.specs.Text.{digit_of, hex_of, decimal_of, words, refusal_line, success_line};
ghost use Rattle.report.specs.Writing.{Wrote};

// An upper-case hexadecimal digit.
#[tactic(auto, unfolding(crate::specs::Text::digit_of))]
fn digit(n: u8) -> u8
    requires { n < 16 }
    ensures { result ≡ digit_of n }
{
    if n < 10 { 48 + n } else { 55 + n }
}

/// The place, or the buffer's end where that comes first: nothing is written.
pub fn place(text: &[u8], at: usize) -> usize
    ensures { Wrote [] at text.now text.now result }
{
    at.min(text.len())
}

/// One byte.
pub fn byte(text: &mut [u8], at: usize, b: u8) -> usize
    ensures { Wrote (b ∷ []) at text.old text.new result }
{
    if at < text.len() {
        text[at] = b;
        return at + 1;
    }
    text.len()
}

/// Bytes as they stand.
pub fn bytes(text: &mut [u8], at: usize, bytes: &[u8]) -> usize
    ensures { Wrote bytes.now at text.old text.new result }
{
    let start = place(text, at);
    let room = text.len() - start;
    let count = bytes.len().min(room);
    text[start..start + count].copy_from_slice(&bytes[..count]);
    start + count
}

// A byte in upper-case hexadecimal.
fn hex_byte(text: &mut [u8], at: usize, b: u8) -> usize
    ensures { Wrote (digit_of (b / 16) ∷ digit_of (b % 16) ∷ []) at text.old text.new result }
{
    let end = byte(text, at, digit(b / 16));
    byte(text, end, digit(b % 16))
}

/// Bytes in upper-case hexadecimal, two digits a byte.
pub fn hex(text: &mut [u8], at: usize, bytes: &[u8]) -> usize
    ensures { Wrote (hex_of bytes.now) at text.old text.new result }
{
    let mut end = place(text, at);
    for b in bytes {
        end = hex_byte(text, end, *b);
    }
    end
}

/// A number in decimal: its digits are set from the last to the first, and then written.
pub fn decimal(text: &mut [u8], at: usize, n: usize) -> usize
    ensures { Wrote (decimal_of n) at text.old text.new result }
{
    if n < 10 {
        return byte(text, at, digit(n as u8));
    }
    let mut digits = [0u8; 20];
    let mut m = n;
    let mut i = 19;
    // No `for`: what is left of the number says whether a digit stands before this one.
    while 9 < m {
        digits[i] = digit((m % 10) as u8);
        m /= 10;
        i -= 1;
    }
    digits[i] = digit(m as u8);
    bytes(text, at, &digits[i..])
}

/// A word of a line: a space, and a number in decimal.
pub fn decimal_word(text: &mut [u8], at: usize, n: usize) -> usize
    ensures { Wrote (words (decimal_of n ∷ [])) at text.old text.new result }
{
    let end = byte(text, at, b' ');
    decimal(text, end, n)
}

/// A word of a line: a space, and bytes in hexadecimal.
pub fn hex_word(text: &mut [u8], at: usize, bytes: &[u8]) -> usize
    ensures { Wrote (words (hex_of bytes.now ∷ [])) at text.old text.new result }
{
    let end = byte(text, at, b' ');
    hex(text, end, bytes)
}

/// The line of a refusal: `no` and its number.
pub fn refusal(text: &mut [u8], at: usize, code: usize) -> usize
    ensures { Wrote (refusal_line code) at text.old text.new result }
{
    let mut end = bytes(text, at, b"no");
    end = decimal_word(text, end, code);
    byte(text, end, b'\n')
}

/// The line of a success: `ok`, the steps and the output.
pub fn success(text: &mut [u8], at: usize, steps: usize, output: &[u8]) -> usize
    ensures { Wrote (success_line steps output.now) at text.old text.new result }
{
    let mut end = bytes(text, at, b"ok");
    end = decimal_word(text, end, steps);
    end = hex_word(text, end, output);
    byte(text, end, b'\n')
}
