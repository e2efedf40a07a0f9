//! The answers of tools as one number, case by case, and the place of a fault in a number that the caller lends.
#![tactic(auto)]

ghost use Rattle.value.specs.Numbered.{numbered};
ghost use Rattle.numbering.specs.Replies.{told as reply_told};
ghost use Rattle.telling.specs.Tools.{MadeTold, NumberTold, VerdictTold, ReadTold};

use made::Made;
use numbering::{Fault, Numbered};
use packing::{low, pack_told};
use parsing::Reading;
use refusal::Refusal;

/// What a tool made: its length, or its refusal.
pub fn pack_made(made: Made) -> u64
    ensures { MadeTold made result }
{
    match made {
        Ok(n) => pack_told(0, low(n)),
        Err(refusal) => pack_told(refusal.number(), 0),
    }
}

/// What was replied about a sheet: the length of what was made, or the refusal, and the node of `NodeTwice`.
pub fn pack_numbered(reply: Numbered) -> u64
    ensures { NumberTold (reply_told reply) result }
{
    match reply {
        Ok(n) => pack_told(0, low(n)),
        Err(Fault::Refused(refusal)) => pack_told(refusal.number(), 0),
        Err(Fault::Twice(n)) => pack_told(Refusal::NodeTwice.number(), low(n)),
    }
}

/// A verdict: 1 for yes, 0 for no, or its refusal.
pub fn pack_verdict(verdict: Result<bool, Refusal>) -> u64
    ensures { VerdictTold (numbered verdict) result }
{
    match verdict {
        Ok(true) => pack_told(0, 1),
        Ok(false) => pack_told(0, 0),
        Err(refusal) => pack_told(refusal.number(), 0),
    }
}

/// What reading a text gave: the length of the sheet, or the refusal; of a fault its detail too, and in the caller's number its place, which else stays
/// what it was.
pub fn hand_reading(reading: Reading, place: &mut usize) -> u64
    ensures { ReadTold reading result place.old place.new }
{
    match reading {
        Reading::Done(n) => pack_told(0, low(n)),
        Reading::Refused(c) => pack_told(c, 0),
        Reading::At {
            refusal,
            place: at,
            detail,
        } => {
            *place = at;
            pack_told(refusal, u16::from(detail))
        }
    }
}
