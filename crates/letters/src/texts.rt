//! A value as JSON (letter D), and JSON as a value (letter E).
ghost use Rattle.report.specs.Writing.{Wrote};
ghost use Rattle.letters.specs.Texts.{text_line, parsed_line};

use crate::lines::{Plain, line, made_line, refused};

/// The line of letter D.
pub fn text_line(input: &[u8], text: &mut [u8]) -> usize
    ensures { Wrote (text_line input.now) 0 text.old text.new result }
{
    let mut out = [0u8; json_codec::TEXT];
    match json_codec::write(inputs::rest_from(input, 1), &mut out) {
        Ok(n) => {
            let bytes = inputs::part_at(&out, 0, n);
            line(&Plain { bytes }, text)
        }
        Err(e) => refused(e, text),
    }
}

/// The line of letter E.
pub fn parsed_line(input: &[u8], text: &mut [u8]) -> usize
    ensures { Wrote (parsed_line input.now) 0 text.old text.new result }
{
    let mut out = [0u8; json_codec::VALUE];
    let made = json_codec::read(inputs::rest_from(input, 1), &mut out);
    made_line(made, &out, text)
}
