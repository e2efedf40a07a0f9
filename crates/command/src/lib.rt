//! What the program `tools` is handed, taken apart and run: docs/TOOLS.md has the letters and their fields.
#![tactic(auto)]

ghost use Rattle.report.specs.Writing.{Front};
ghost use Rattle.command.specs.Line.{tool_line, BuffersAfter};

use walking::{check_line, put_line, why_line};

/// The most bytes of a line: `ok`, a space, a text of 16,384 bytes in hexadecimal, a line feed.
pub const LINE: usize = 32_772;

/// The line that the program prints for an input, at the front of `text`; and how long it is.
pub fn line(
    input: &[u8],
    out: &mut [u8; rules::PUT_OUTPUT],
    scratch: &mut [u8; rules::SCRATCH],
    text: &mut [u8; LINE],
) -> usize
    ensures front { Front (tool_line input.now) text.old text.new result }
    ensures buffers_after { BuffersAfter input.now out.old out.new scratch.old scratch.new }
{
    if inputs::INPUT < input.len() {
        return report::refusal(text, 0, 61);
    }
    let letter = inputs::byte_at(input, 0);
    match letter {
        b'S' => put_line(input, false, out, scratch, text),
        b'W' => put_line(input, true, out, scratch, text),
        b'Y' => why_line(input, scratch, text),
        b'C' => check_line(input, scratch, text),
        _ => letters::line(input, text),
    }
}
