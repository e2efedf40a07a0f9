//! Sheets written as text, read from the left to the sheet's bytes (docs/SHEETS.md).
#![tactic(auto)]

ghost use Rattle.std.specs.Prelude.{◌≡◌, length};
ghost use Rattle.parsing.specs.Answer.{read_answer, reply_of, output_of};

mod cursor;
mod expect;
mod expr;
mod names;
mod nodes;
mod whole;

/// The bytes of output that a sheet takes.
pub const OUTPUT: usize = 2_048;

/// How many bytes the sheet has, at the front of the output; a refusal's number; or one that is met in the text, with how many bytes stand
/// before it and what was expected.
#[derive(Clone, Copy, Debug, PartialEq, Eq)]
pub enum Reading {
    Done(usize),
    Refused(u8),
    At {
        refusal: u8,
        place: usize,
        detail: u8,
    },
}

/// The sheet that a text says, at the front of the output, its nodes numbered as they are met. Refusals: 1 output under 2,048 bytes; 90 to 94, the
/// first fault from the left; a name of no section (91) once the text is read. A refusal writes nothing.
pub fn read(text: &[u8], out: &mut [u8]) -> Reading
    ensures value { result ≡ reply_of (read_answer text.now (length out.old)) }
    ensures out_after { out.new ≡ output_of (read_answer text.now (length out.old)) out.old }
{
    if out.len() < OUTPUT {
        return Reading::Refused(1);
    }
    whole::read(text, out)
}
