//! Get and put for C, with the starts of a put's new plan and the bits of the variables written.
ghost use Rattle.std.specs.Prelude.{◌≡◌, ◌≤◌, length};
ghost use Rattle.rules.specs.Answer.{get_answer, put_answer};
ghost use Rattle.rules.specs.Bits.{put_written};
ghost use Rattle.calls.specs.Trips.{Consistent, Acceptable};
ghost use Rattle.calls.specs.Small.{Small};
ghost use Rattle.lens.specs.Packing.{unpacked, Packed, ReplyPacked};
ghost use Rattle.calls.specs.Reply.{told, put_told};
ghost use Rattle.lens.specs.HandedOut.{bits_or, written_or, PutHanded, PackedPut};

use calls::{Done, PutDone, Reply, get, put};
use packing::hand;
use refusal::Refusal;

// A reply, and how many starts are told with it.
fn pack(reply: Reply, count: u8) -> u64
    requires { Small (told reply) }
    ensures { ReplyPacked (told reply) count result }
{
    match reply {
        Err(refusal) => packing::pack(refusal.number(), 0, count, 0),
        Ok(Done { len, steps }) => packing::pack(0, len as u16, count, steps as u32),
    }
}

// What a put answers: its reply with how many starts there are, and the starts at the front of the caller's numbers.
fn hand_put(answer: Result<PutDone, Refusal>, starts: &mut [u16; 16]) -> u64
    requires { Small (put_told answer).reply × ((put_told answer).starts.count ≤ 16) }
    ensures { PutHanded (put_told answer) result starts.old starts.new }
{
    match answer {
        Err(refusal) => pack(Err(refusal), 0),
        Ok(put) => {
            hand(&put.starts.at, usize::from(put.starts.count), starts);
            pack(Ok(put.done), put.starts.count)
        }
    }
}

// The bits of a put in the caller's number; behind a refusal it does not change.
fn hand_bits(answer: Result<PutDone, Refusal>, written: &mut u16)
    ensures { written.new ≡ bits_or (put_told answer) written.old }
{
    if let Ok(put) = answer {
        *written = put.written;
    }
}

/// `get` for C.
#[unsafe(no_mangle)]
pub extern "C" fn lens_get(
    sheet: &[u8],
    plan: &[u8],
    allowance: u32,
    out: &mut [u8],
    scratch: &mut [u8],
) -> u64
    ensures packed { Packed (get_answer sheet.now plan.now allowance (length out.old) (length scratch.old)) result
        out.old out.new scratch.old scratch.new }
    ensures acceptable { Acceptable sheet.now plan.now (unpacked result) out.new }
{
    pack(get(sheet, plan, allowance, out, scratch), 0)
}

/// `put` for C.
#[unsafe(no_mangle)]
pub extern "C" fn lens_put(
    sheet: &[u8],
    plan: &[u8],
    view: &[u8],
    allowance: u32,
    out: &mut [u8],
    scratch: &mut [u8],
) -> u64
    ensures packed { Packed (put_answer sheet.now plan.now view.now allowance (length out.old)
        (length scratch.old)) result out.old out.new scratch.old scratch.new }
    ensures consistent { Consistent sheet.now view.now allowance (unpacked result) out.new }
{
    match put(sheet, plan, view, allowance, out, scratch) {
        Err(refusal) => pack(Err(refusal), 0),
        Ok(put) => pack(Ok(put.done), 0),
    }
}

/// `put` for C that also gives the starts of the new plan, at the front of `starts`, and how many there are in its answer.
#[unsafe(no_mangle)]
pub extern "C" fn lens_put_starts(
    sheet: &[u8],
    plan: &[u8],
    view: &[u8],
    allowance: u32,
    out: &mut [u8],
    scratch: &mut [u8],
    starts: &mut [u16; 16],
) -> u64
    ensures packed_put { PackedPut sheet.now (put_answer sheet.now plan.now view.now allowance
        (length out.old) (length scratch.old)) result out.old out.new scratch.old scratch.new
        starts.old starts.new }
    ensures consistent { Consistent sheet.now view.now allowance (unpacked result) out.new }
{
    hand_put(put(sheet, plan, view, allowance, out, scratch), starts)
}

/// `put` for C that gives the starts of the new plan, as `lens_put_starts` does, and which plan variables took a view, in `written`.
#[unsafe(no_mangle)]
pub extern "C" fn lens_put_written(
    sheet: &[u8],
    plan: &[u8],
    view: &[u8],
    allowance: u32,
    out: &mut [u8],
    scratch: &mut [u8],
    starts: &mut [u16; 16],
    written: &mut u16,
) -> u64
    ensures packed_put { PackedPut sheet.now (put_answer sheet.now plan.now view.now allowance
        (length out.old) (length scratch.old)) result out.old out.new scratch.old scratch.new
        starts.old starts.new }
    ensures consistent { Consistent sheet.now view.now allowance (unpacked result) out.new }
    ensures written_after { written.new ≡ written_or (put_written sheet.now plan.now view.now allowance)
        (put_answer sheet.now plan.now view.now allowance (length out.old) (length scratch.old))
        written.old }
{
    let answer = put(sheet, plan, view, allowance, out, scratch);
    hand_bits(answer, written);
    hand_put(answer, starts)
}
