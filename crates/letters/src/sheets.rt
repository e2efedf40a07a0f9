//! A sheet in the one numbering (letter N), and two sheets joined (letter J).
ghost use Rattle.report.specs.Writing.{Wrote};
ghost use Rattle.letters.specs.Sheets.{number_line, join_line};
ghost use Rattle.letters.specs.SheetLaws.{number_reply};
ghost use Rattle.numbering.specs.Replies.{told};

use crate::lines::{Hex, line, made_line, refused};
use numbering::{Fault, Numbered};
use refusal::Refusal;

// The line of what was replied about a sheet: what was made, at the front of its output, in hexadecimal; or the refusal.
pub fn numbered_line(reply: Numbered, out: &[u8], text: &mut [u8]) -> usize
    ensures { Wrote (number_reply (told reply) out.now) 0 text.old text.new result }
{
    match reply {
        Ok(n) => {
            let bytes = inputs::part_at(out, 0, n);
            line(&Hex { bytes }, text)
        }
        Err(fault) => match fault {
            Fault::Refused(e) => refused(e, text),
            Fault::Twice(n) => words::node_line(text, Refusal::NodeTwice.number(), n),
        },
    }
}

/// The line of letter N.
pub fn number_line(input: &[u8], text: &mut [u8]) -> usize
    ensures { Wrote (number_line input.now) 0 text.old text.new result }
{
    let mut sheet = [0u8; numbering::OUTPUT];
    let reply = numbering::number(inputs::rest_from(input, 1), &mut sheet);
    numbered_line(reply, &sheet, text)
}

/// The line of letter J.
pub fn join_line(input: &[u8], text: &mut [u8]) -> usize
    ensures { Wrote (join_line input.now) 0 text.old text.new result }
{
    let first = inputs::number_at(input, 1);
    if input.len() < 3 + first {
        return report::refusal(text, 0, 60);
    }
    let mut joined = [0u8; join::OUTPUT];
    let made = join::join(
        inputs::part_at(input, 3, first),
        inputs::rest_from(input, 3 + first),
        &mut joined,
    );
    made_line(made, &joined, text)
}
