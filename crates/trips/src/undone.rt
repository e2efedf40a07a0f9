//! Taking back an edit: a get, a put of the edited list, and a put of the first list into the new plan.
ghost use Rattle.std.specs.Prelude.{length};
ghost use Rattle.rules.specs.Answer.{get_answer, put_answer};
ghost use Rattle.together.specs.Trip.{trip_of};
ghost use Rattle.together.specs.Undone.{ThreeCalls, TakesBack, first_into_new};

use crate::reply_of;
use calls::Done;
use together::{Trip, returned};

/// Reads a list out under the allowance `reading`, puts an edited one, and puts the first list into the new plan, both under
/// `allowance`. The list is at the front of `list`, the new plan at the front of `new`, what the last put gives at the front of
/// `out`. Kept has the steps of both puts: the old plan is back, in as many steps. Under a sheet that chooses nothing (no node
/// that a walk can reach is a 17, 18 or 1C) an edit that is taken is kept where `out` takes a plan, and it is never broken.
pub fn put_and_undo(
    sheet: &[u8],
    plan: &[u8],
    edited: &[u8],
    reading: u32,
    allowance: u32,
    list: &mut [u8],
    new: &mut [u8],
    out: &mut [u8],
    scratch: &mut [u8],
) -> Trip
    ensures three_calls { ThreeCalls plan.now (get_answer sheet.now plan.now reading (length list.old)
        (length scratch.old)) (put_answer sheet.now plan.now edited.now allowance (length new.old)
        (length scratch.old)) (first_into_new sheet.now allowance (length out.old) (length scratch.old)) (trip_of result)
        list.old list.new new.old new.new out.old out.new scratch.old
        scratch.new }
    ensures takes_back { TakesBack sheet.now plan.now
        (get_answer sheet.now plan.now reading (length list.old) (length scratch.old))
        (put_answer sheet.now plan.now edited.now allowance (length new.old) (length scratch.old))
        (length out.old) (trip_of result) out.new }
{
    match calls::get(sheet, plan, reading, list, scratch) {
        Err(refusal) => Trip::Stopped(refusal),
        Ok(Done { len, .. }) => {
            match calls::put(sheet, plan, edited, allowance, new, scratch) {
                Err(refusal) => Trip::Stopped(refusal),
                Ok(put) => {
                    let Done { len: end, steps } = put.done;
                    let again = calls::put(
                        sheet,
                        &new[..end],
                        &list[..len],
                        allowance,
                        out,
                        scratch,
                    );
                    returned(steps, reply_of(again), out, plan)
                }
            }
        }
    }
}
