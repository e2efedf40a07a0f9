//! What is handed out in numbers and bytes that the caller lends: starts, the nodes of a chain, and where a value stands.
ghost use Rattle.std.specs.Prelude.{◌≡◌, min, length};
ghost use Rattle.value.specs.Numbered.{numbered};
ghost use Rattle.packing.specs.HandedOut.{handed_over, Lookup};

use refusal::Refusal;
use starts::Place;

/// The first items of `from` at the front of the caller's `to`, `count` of them, at most all and as far as there is room; those behind them do not change.
pub fn hand<T: Copy>(from: &[T], count: usize, to: &mut [T])
    ensures { to.new ≡ handed_over (min count (min (length from.now) (length to.old))) from.now to.old }
{
    let n = count.min(from.len()).min(to.len());
    to[..n].copy_from_slice(&from[..n]);
}

/// Where a value was found: 0, and its start and end in the caller's numbers; or a refusal's number, and both stay what they were.
pub fn hand_found(found: Result<Place, Refusal>, start: &mut usize, end: &mut usize) -> u8
    ensures { Lookup (numbered found) result start.old start.new end.old end.new }
{
    match found {
        Err(refusal) => refusal.number(),
        Ok(place) => {
            *start = place.start;
            *end = place.end;
            0
        }
    }
}
