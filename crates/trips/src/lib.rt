//! Calls one after the other: a list put back and read out again, a list read out and put back unedited, and an edit that is taken back.
#![tactic(auto)]

ghost use Rattle.std.specs.Prelude.{◌≡◌, length};
ghost use Rattle.rules.specs.Answer.{get_answer, put_answer};
ghost use Rattle.calls.specs.Reply.{told, put_told};
ghost use Rattle.together.specs.Trip.{trip_of};
ghost use Rattle.together.specs.RoundTrips.{Tripped, ListStands, PlanStays, back_and_out, out_and_back};

mod undone;

use calls::{Done, PutDone, Reply};
use refusal::Refusal;
pub use together::Trip;
use together::judged;
pub use undone::put_and_undo;

// What a put answers, without where the values of its new plan stand.
fn reply_of(put: Result<PutDone, Refusal>) -> Reply
    ensures { told result ≡ (put_told put).reply }
{
    Ok(put?.done)
}

/// Puts a list back and reads the new plan out again, under the same sheet and allowance. The new plan is at the front of
/// `new`, the list read out at the front of `out`. A put that succeeds is kept where `out` takes a list: the list read out is the
/// one put back, in no more steps. It is never broken.
pub fn put_then_get(
    sheet: &[u8],
    plan: &[u8],
    view: &[u8],
    allowance: u32,
    new: &mut [u8],
    out: &mut [u8],
    scratch: &mut [u8],
) -> Trip
    ensures tripped { Tripped (put_answer sheet.now plan.now view.now allowance (length new.old)
        (length scratch.old)) (back_and_out sheet.now allowance (length out.old) (length scratch.old)) (trip_of result)
        new.old new.new out.old out.new scratch.old scratch.new }
    ensures list_stands { ListStands sheet.now plan.now view.now allowance (length new.old)
        (length out.old) (length scratch.old) (trip_of result) out.new }
{
    match calls::put(sheet, plan, view, allowance, new, scratch) {
        Err(refusal) => Trip::Stopped(refusal),
        Ok(put) => {
            let Done { len, steps } = put.done;
            let door = calls::door(
                rules::GET_OUTPUT,
                out.len(),
                scratch.len(),
                allowance as usize,
            );
            if let Err(refusal) = door {
                return Trip::Stopped(refusal);
            }
            let again = calls::get(sheet, &new[..len], allowance, out, scratch);
            judged(steps, again, steps, out, view)
        }
    }
}

/// Reads a list out and puts it back unedited, under 48 times the steps that reading it took; where that is over 1,000,000
/// the answer is refusal 3. The list is at the front of `view`, the new plan at the front of `out`. A get that succeeds is kept
/// where `out` takes a plan and the steps allow it: the new plan is the old one. It is never broken.
pub fn get_then_put(
    sheet: &[u8],
    plan: &[u8],
    allowance: u32,
    view: &mut [u8],
    out: &mut [u8],
    scratch: &mut [u8],
) -> Trip
    ensures tripped { Tripped (get_answer sheet.now plan.now allowance (length view.old) (length scratch.old))
        (out_and_back sheet.now plan.now (length out.old) (length scratch.old)) (trip_of result) view.old
        view.new out.old out.new scratch.old scratch.new }
    ensures plan_stays { PlanStays sheet.now plan.now allowance (length view.old) (length out.old)
        (length scratch.old) (trip_of result) out.new }
{
    match calls::get(sheet, plan, allowance, view, scratch) {
        Err(refusal) => Trip::Stopped(refusal),
        Ok(Done { len, steps }) => {
            let most = rules::FACTOR * steps;
            let door = calls::door(rules::PUT_OUTPUT, out.len(), scratch.len(), most);
            if let Err(refusal) = door {
                return Trip::Stopped(refusal);
            }
            let again = calls::put(sheet, plan, &view[..len], most as u32, out, scratch);
            judged(steps, reply_of(again), most, out, plan)
        }
    }
}
