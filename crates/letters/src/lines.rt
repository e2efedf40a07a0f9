//! Lines that letters share: of one word, of a refusal, and of what a tool made.
ghost use Rattle.std.specs.Prelude.{false, List, [], ◌∷◌, ℕ};
ghost use Rattle.refusal.specs.Refusal.{number_of};
ghost use Rattle.report.specs.Text.{hex_of, decimal_of, ok_line, refusal_line};
ghost use Rattle.report.specs.Writing.{Wrote};
ghost use Rattle.letters.specs.Making.{made_reply};

use made::Made;
use refusal::Refusal;

// What a line may have as its word.
pub trait Say {
    ghost said: { Self → List ℕ };

    fn say(&self, text: &mut [u8], at: usize) -> usize
        ensures { Wrote (said self.now) at text.old text.new result };
}

// Bytes in hexadecimal.
#[derive(Clone, Copy, Debug, PartialEq, Eq)]
pub struct Hex<'a> {
    pub bytes: &'a [u8],
}

impl<'a> Say for Hex<'a> {
    ghost said = { λ h. hex_of h.bytes.now };

    fn say(&self, text: &mut [u8], at: usize) -> usize {
        report::hex(text, at, self.bytes)
    }
}

// Bytes as they stand.
#[derive(Clone, Copy, Debug, PartialEq, Eq)]
pub struct Plain<'a> {
    pub bytes: &'a [u8],
}

impl<'a> Say for Plain<'a> {
    ghost said = { λ p. p.bytes.now };

    fn say(&self, text: &mut [u8], at: usize) -> usize {
        report::bytes(text, at, self.bytes)
    }
}

// A number in decimal.
#[derive(Clone, Copy, Debug, PartialEq, Eq)]
pub struct Number {
    pub number: usize,
}

impl Say for Number {
    ghost said = { λ n. decimal_of n.number };

    fn say(&self, text: &mut [u8], at: usize) -> usize {
        report::decimal(text, at, self.number)
    }
}

// The line of one word.
pub fn line<T: Say>(word: &T, text: &mut [u8]) -> usize
    ensures { Wrote (ok_line (T.said word.now ∷ [])) 0 text.old text.new result }
{
    let mut end = report::bytes(text, 0, b"ok ");
    end = word.say(text, end);
    report::byte(text, end, b'\n')
}

// The line of a refusal.
pub fn refused(refusal: Refusal, text: &mut [u8]) -> usize
    ensures { Wrote (refusal_line (number_of refusal)) 0 text.old text.new result }
{
    report::refusal(text, 0, usize::from(refusal.number()))
}

// The line of what a tool made at the front of its output, in hexadecimal.
pub fn made_line(made: Made, out: &[u8], text: &mut [u8]) -> usize
    ensures { Wrote (made_reply false made out.now) 0 text.old text.new result }
{
    match made {
        Ok(n) => {
            let bytes = inputs::part_at(out, 0, n);
            line(&Hex { bytes }, text)
        }
        Err(e) => refused(e, text),
    }
}
