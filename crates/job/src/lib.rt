//! What the program is handed, run as a job, and the line of its answer written.
#![tactic(auto)]

ghost use Rattle.rules.specs.Numbers.{scratch_size, get_output, put_output};
ghost use Rattle.rules.specs.Answer.{get_answer, put_answer};
ghost use Rattle.report.specs.Writing.{Wrote, Front};
ghost use Rattle.job.specs.Line.{job_line, reply_line, Printed, BuffersAfter};
ghost use Rattle.calls.specs.CallLaws.{Within};
ghost use Rattle.calls.specs.Reply.{told};

use calls::Reply;
use inputs::{INPUT, Job, plan_of, sheet_of, view_of};

/// The most bytes of a line: `ok`, steps of 7 digits, 4,096 bytes in hexadecimal, spaces and a line feed.
pub const LINE: usize = 8_204;

// The line of a call's reply, whose bytes are at the front of `out`.
fn reply_line(reply: Reply, out: &[u8], text: &mut [u8]) -> usize
    requires { Within (told reply) out.now }
    ensures { Wrote (reply_line (told reply) out.now) 0 text.old text.new result }
{
    match reply {
        Err(e) => report::refusal(text, 0, usize::from(e.number())),
        Ok(done) => report::success(text, 0, done.steps, &out[..done.len]),
    }
}

// A get, and the line of its answer.
fn get_line(
    sheet: &[u8],
    plan: &[u8],
    allowance: u32,
    out: &mut [u8; rules::PUT_OUTPUT],
    scratch: &mut [u8; rules::SCRATCH],
    text: &mut [u8; LINE],
) -> usize
    ensures { Printed (get_answer sheet.now plan.now allowance get_output scratch_size) result text.old text.new
        out.old out.new scratch.old scratch.new }
{
    let reply = calls::get(sheet, plan, allowance, out, scratch);
    reply_line(reply, out, text)
}

// A put, and the line of its answer.
fn put_line(
    sheet: &[u8],
    plan: &[u8],
    view: &[u8],
    allowance: u32,
    out: &mut [u8; rules::PUT_OUTPUT],
    scratch: &mut [u8; rules::SCRATCH],
    text: &mut [u8; LINE],
) -> usize
    ensures { Printed (put_answer sheet.now plan.now view.now allowance put_output scratch_size) result text.old
        text.new out.old out.new scratch.old scratch.new }
{
    match calls::put(sheet, plan, view, allowance, out, scratch) {
        Ok(put) => reply_line(Ok(put.done), out, text),
        Err(e) => reply_line(Err(e), out, text),
    }
}

/// The line that the program prints for an input, at the front of `text`; and how long it is.
pub fn line(
    input: &[u8],
    out: &mut [u8; rules::PUT_OUTPUT],
    scratch: &mut [u8; rules::SCRATCH],
    text: &mut [u8; LINE],
) -> usize
    ensures front { Front (job_line input.now) text.old text.new result }
    ensures buffers_after { BuffersAfter input.now out.old out.new scratch.old scratch.new }
{
    if INPUT < input.len() {
        return report::refusal(text, 0, 61);
    }
    let Some(job) = inputs::parse(input) else {
        return report::refusal(text, 0, 60);
    };
    match job {
        Job::Get(f) => get_line(
            sheet_of(input, f),
            plan_of(input, f),
            f.allowance,
            out,
            scratch,
            text,
        ),
        Job::Put(f) => put_line(
            sheet_of(input, f),
            plan_of(input, f),
            view_of(input, f),
            f.allowance,
            out,
            scratch,
            text,
        ),
    }
}
