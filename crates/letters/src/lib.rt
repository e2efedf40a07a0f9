//! The letters of the program `tools` that walk nothing: each takes the input, and writes its line.
#![tactic(auto)]

ghost use Rattle.std.specs.Prelude.{◌≤◌, length};
ghost use Rattle.report.specs.Writing.{Wrote};
ghost use Rattle.inputs.specs.Numbers.{input_limit};
ghost use Rattle.words.specs.Numbers.{line_limit};
ghost use Rattle.letters.specs.Letters.{letter_line};

mod checks;
mod growths;
mod lines;
mod lookups;
mod sheet_texts;
mod sheets;
mod texts;

/// The line for an input by its letter; 60 where it is none of these. The line of an input that is not too long fits into that of `tools`.
pub fn line(input: &[u8], text: &mut [u8]) -> usize
    ensures wrote { Wrote (letter_line input.now) 0 text.old text.new result }
    ensures input_len_bound { length input.now ≤ input_limit → length (letter_line input.now) ≤ line_limit }
{
    let letter = inputs::byte_at(input, 0);
    match letter {
        b'L' => lookups::load_line(input, text),
        b'V' => lookups::value_line(input, text),
        b'N' => sheets::number_line(input, text),
        b'J' => sheets::join_line(input, text),
        b'R' => growths::growth_line(input, text),
        b'D' => texts::text_line(input, text),
        b'E' => texts::parsed_line(input, text),
        b'T' => checks::types_line(input, text),
        b'A' => sheet_texts::read_line(input, text),
        b'U' => sheet_texts::print_line(input, text),
        _ => report::refusal(text, 0, 60),
    }
}
