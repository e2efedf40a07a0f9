//! The last of three calls, judged.
ghost use Rattle.std.specs.Prelude.{◌≡◌};
ghost use Rattle.calls.specs.Reply.{told};
ghost use Rattle.together.specs.Trip.{trip_of};
ghost use Rattle.together.specs.Undone.{replied};

use crate::Trip;
use calls::{Done, Reply};

/// What the last call makes of an edit that took `first` steps: kept where it gives these very bytes in as many.
pub fn returned(first: usize, reply: Reply, out: &[u8], plan: &[u8]) -> Trip
    ensures { trip_of result ≡ replied first (told reply) out.now plan.now }
{
    match reply {
        Err(refusal) => Trip::Stopped(refusal),
        Ok(Done { len, steps }) => {
            if steps != first {
                return Trip::Broken;
            }
            let front = &out[..len.min(out.len())];
            if shapes::same(front, plan) {
                return Trip::Kept {
                    first,
                    second: steps,
                };
            }
            Trip::Broken
        }
    }
}
