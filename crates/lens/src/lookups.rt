//! The starts of a plan's values for C, and one value by its number.
ghost use Rattle.lens.specs.HandedOut.{PackedLoad};
ghost use Rattle.packing.specs.HandedOut.{Lookup};
ghost use Rattle.starts.specs.Starts.{load_of, find_of};

use packing::{hand, hand_found, pack};
use refusal::Refusal;
use starts::Starts;

/// `starts::load` for C: the starts at the front of `starts`, and how many there are in the answer.
#[unsafe(no_mangle)]
pub extern "C" fn lens_load(sheet: &[u8], plan: &[u8], starts: &mut [u16; 16]) -> u64
    ensures { PackedLoad (load_of sheet.now plan.now) result starts.old starts.new }
{
    match starts::load(sheet, plan) {
        Err(refusal) => pack(refusal.number(), 0, 0, 0),
        Ok(given) => {
            hand(&given.at, usize::from(given.count), starts);
            pack(0, 0, given.count, 0)
        }
    }
}

/// `starts::find` for C: 0, and where the value starts and ends; or a refusal's number, and both numbers stay what they were.
#[unsafe(no_mangle)]
pub extern "C" fn lens_find(
    starts: &[u16; 16],
    count: usize,
    len: usize,
    variable: usize,
    start: &mut usize,
    end: &mut usize,
) -> u8
    ensures { Lookup (find_of (record { count = count; at = starts.now }) len variable) result start.old start.new
        end.old end.new }
{
    if 16 < count {
        return Refusal::Starts.number();
    }
    let kept = Starts {
        count: count as u8,
        at: *starts,
    };
    hand_found(starts::find(kept, len, variable), start, end)
}
