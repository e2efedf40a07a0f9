//! A text as the sheet that it says (letter A), and a sheet as text (letter U).
ghost use Rattle.std.specs.Prelude.{◌≤◌, length};
ghost use Rattle.report.specs.Writing.{Wrote};
ghost use Rattle.words.specs.Numbers.{line_limit};
ghost use Rattle.letters.specs.SheetTexts.{fault_line, read_line, print_line};

use crate::lines::{Hex, line};
use crate::sheets::numbered_line;
use parsing::Reading;

// The line of a fault in a text: its number, how many bytes stand before it, and its detail.
fn fault_line(refusal: u8, place: usize, detail: u8, text: &mut [u8]) -> usize
    ensures wrote { Wrote (fault_line refusal place detail) 0 text.old text.new result }
    ensures detail_len_bound { length (fault_line refusal place detail) ≤ line_limit }
{
    let mut end = report::bytes(text, 0, b"no");
    end = report::decimal_word(text, end, usize::from(refusal));
    end = report::decimal_word(text, end, place);
    end = report::decimal_word(text, end, usize::from(detail));
    report::byte(text, end, b'\n')
}

/// The line of letter A, which fits into that of `tools`.
pub fn read_line(input: &[u8], text: &mut [u8]) -> usize
    ensures wrote { Wrote (read_line input.now) 0 text.old text.new result }
    ensures input_len_bound { length (read_line input.now) ≤ line_limit }
{
    let mut sheet = [0u8; parsing::OUTPUT];
    match parsing::read(inputs::rest_from(input, 1), &mut sheet) {
        Reading::Done(n) => line(
            &Hex {
                bytes: inputs::part_at(&sheet, 0, n),
            },
            text,
        ),
        Reading::Refused(c) => report::refusal(text, 0, usize::from(c)),
        Reading::At {
            refusal,
            place,
            detail,
        } => fault_line(refusal, place, detail, text),
    }
}

/// The line of letter U.
pub fn print_line(input: &[u8], text: &mut [u8]) -> usize
    ensures { Wrote (print_line input.now) 0 text.old text.new result }
{
    let mut out = [0u8; printing::OUTPUT];
    let reply = printing::print(inputs::rest_from(input, 1), &mut out);
    numbered_line(reply, &out, text)
}
