//! What callers call: get and put on lent buffers.
#![tactic(auto)]

ghost use Rattle.std.specs.Prelude.{◌≡◌, ◌+◌, ◌≤◌, min, length, drop};
ghost use Rattle.std.specs.Prelude.{Ok, Err};
ghost use Rattle.std.proofs.Math.Seq.{paste};
ghost use Rattle.rules.specs.Numbers.{scratch_size, stack_start};
ghost use Rattle.rules.specs.Answer.{get_answer, put_answer};
ghost use Rattle.buffers.specs.Buffers.{zeros, zeroed};
ghost use Rattle.calls.specs.Calls.{Answered, PutAnswered};
ghost use Rattle.arena.specs.Door.{Judges};
ghost use Rattle.calls.specs.Reply.{told, put_told};
ghost use Rattle.calls.specs.Output.{HasRoom, output_of};
ghost use Rattle.calls.specs.Trips.{Consistent, Acceptable};

use buffers::{clear, copy_out};
use refusal::Refusal;
use starts::Starts;
pub use walk::Done;

/// What a walk and a call answer.
pub type Reply = Result<Done, Refusal>;

/// What a put gives: the length of its new plan and the steps that it took, where the plan's values start, and which plan variables took a view, bit i
/// for variable i, also where its value is the old one.
#[derive(Clone, Copy, Debug, PartialEq, Eq)]
pub struct PutDone {
    pub done: Done,
    pub starts: Starts,
    pub written: u16,
}

/// What a call refuses before it reads anything: `OutputSmall` for an output under `need` bytes (rules::GET_OUTPUT, rules::PUT_OUTPUT), then
/// `ScratchSmall`, then `AllowanceRange`.
pub fn door(need: usize, output: usize, scratch: usize, allowance: usize) -> Result<(), Refusal>
    ensures { Judges need output scratch allowance result }
{
    if output < need {
        return Err(Refusal::OutputSmall);
    }
    arena::door(scratch, allowance)
}

/// The same for a call that takes no output: `ScratchSmall` or `AllowanceRange`.
pub fn side_door(scratch: usize, allowance: usize) -> Result<(), Refusal>
    ensures { Judges 0 0 scratch allowance result }
{
    door(0, 0, scratch, allowance)
}

// A refusal behind the door: scratch is cleared.
fn refused(refusal: Refusal, scratch: &mut [u8]) -> Reply
    ensures { (result ≡ Err refusal) × (scratch.new ≡ zeros (min scratch_size (length scratch.old)) scratch.old) }
{
    clear(scratch);
    Err(refusal)
}

// A walk that is done: its bytes go to the front of the output, and scratch is cleared.
fn given(done: Done, out: &mut [u8], scratch: &mut [u8]) -> Reply
    requires in_bounds { scratch_size ≤ length scratch.old }
    requires len_in_bounds { (stack_start + done.len ≤ length scratch.old) × (done.len ≤ length out.old) }
    ensures { (result ≡ Ok done) × (out.new ≡ paste out.old 0 (drop stack_start scratch.old) done.len) ×
        (scratch.new ≡ zeroed scratch.old) }
{
    copy_out(scratch, rules::STACK, done.len, out, 0);
    clear(scratch);
    Ok(done)
}

// A walk's answer, told to the caller: what a walk that is done built goes to the output, and scratch is cleared.
fn answered(walked: Reply, out: &mut [u8], scratch: &mut [u8]) -> Reply
    requires in_bounds { scratch_size ≤ length scratch.old }
    requires has_room { HasRoom (told walked) out.old scratch.old }
    ensures { (result ≡ walked) × (out.new ≡ output_of (told walked) out.old scratch.old) ×
        (scratch.new ≡ zeroed scratch.old) }
{
    match walked {
        Ok(done) => given(done, out, scratch),
        Err(refusal) => refused(refusal, scratch),
    }
}

/// Get: the list that a sheet reads out of a plan, at the front of `out`, which takes 256 bytes. Scratch takes 65,536.
pub fn get(sheet: &[u8], plan: &[u8], allowance: u32, out: &mut [u8], scratch: &mut [u8]) -> Reply
    ensures answered { Answered (get_answer sheet.now plan.now allowance (length out.old) (length scratch.old)) (told result)
        out.old out.new scratch.old scratch.new }
    ensures acceptable { Acceptable sheet.now plan.now (told result) out.new }
{
    let steps_allowed = allowance as usize;
    door(rules::GET_OUTPUT, out.len(), scratch.len(), steps_allowed)?;
    let got = walk::get(sheet, plan, steps_allowed, scratch);
    answered(got.walked, out, scratch)
}

/// Put: the new plan that a list edited by the venue gives back, at the front of `out`, which takes 4,096 bytes, where its values
/// start, and which variables were written. Scratch takes 65,536.
pub fn put(
    sheet: &[u8],
    plan: &[u8],
    view: &[u8],
    allowance: u32,
    out: &mut [u8],
    scratch: &mut [u8],
) -> Result<PutDone, Refusal>
    ensures put_answered { PutAnswered sheet.now plan.now view.now allowance
        (put_answer sheet.now plan.now view.now allowance (length out.old) (length scratch.old)) (put_told result)
        out.old out.new scratch.old scratch.new }
    ensures consistent { Consistent sheet.now view.now allowance (put_told result).reply out.new }
{
    let steps_allowed = allowance as usize;
    door(rules::PUT_OUTPUT, out.len(), scratch.len(), steps_allowed)?;
    let put = walk::put(sheet, plan, view, steps_allowed, scratch);
    let done = answered(put.walked, out, scratch)?;
    Ok(PutDone {
        done,
        starts: put.starts,
        written: put.written,
    })
}
