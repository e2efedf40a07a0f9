//! A put, with the starts of its new plan's values (letter S), or with which variables took a view (letter W).
ghost use Rattle.std.specs.Prelude.{◌≤◌};
ghost use Rattle.calls.specs.CallLaws.{Within};
ghost use Rattle.calls.specs.Reply.{put_told};
ghost use Rattle.inputs.specs.Format.{fields_of};
ghost use Rattle.report.specs.Text.{words};
ghost use Rattle.report.specs.Writing.{Wrote};
ghost use Rattle.walking.specs.Endings.{besides, puts, reply_line, Ended};

use calls::PutDone;
use refusal::Refusal;
use starts::Starts;

// What stands behind a new plan: which variables took a view, or where its values start.
fn besides_words(text: &mut [u8], at: usize, bits: bool, starts: Starts, written: u16) -> usize
    requires { starts.count ≤ 16 }
    ensures { Wrote (words (besides bits starts written)) at text.old text.new result }
{
    if bits {
        return words::bits_word(text, at, written);
    }
    words::start_words(text, at, starts)
}

// The line of what a put answers, whose bytes are at the front of `out`, with what stands behind its new plan.
fn reply_line(put: Result<PutDone, Refusal>, bits: bool, out: &[u8], text: &mut [u8]) -> usize
    requires { Within (put_told put).reply out.now × ((put_told put).starts.count ≤ 16) }
    ensures { Wrote (reply_line (put_told put).reply (besides bits (put_told put).starts (put_told put).written) out.now) 0
        text.old text.new result }
{
    match put {
        Err(e) => report::refusal(text, 0, usize::from(e.number())),
        Ok(put) => {
            let mut end = report::bytes(text, 0, b"ok");
            end = report::decimal_word(text, end, put.done.steps);
            end = report::hex_word(text, end, &out[..put.done.len]);
            end = besides_words(text, end, bits, put.starts, put.written);
            report::byte(text, end, b'\n')
        }
    }
}

/// The line of letter W (`bits`) or S, and the put that it takes.
pub fn put_line(
    input: &[u8],
    bits: bool,
    out: &mut [u8; rules::PUT_OUTPUT],
    scratch: &mut [u8; rules::SCRATCH],
    text: &mut [u8],
) -> usize
    ensures { Ended (puts bits input.now (fields_of input.now)) result text.old text.new out.old
        out.new scratch.old scratch.new }
{
    let Some(f) = inputs::take_fields(input) else {
        return report::refusal(text, 0, 60);
    };
    let put = calls::put(
        inputs::sheet_of(input, f),
        inputs::plan_of(input, f),
        inputs::view_of(input, f),
        f.allowance,
        out,
        scratch,
    );
    reply_line(put, bits, out, text)
}
