//! The second of two calls, judged.
ghost use Rattle.std.specs.Prelude.{◌≡◌};
ghost use Rattle.calls.specs.Reply.{told};
ghost use Rattle.together.specs.Trip.{trip_of};
ghost use Rattle.together.specs.RoundTrips.{verdict};

use crate::Trip;
use calls::{Done, Reply};

/// What the second call makes of a first one of `first` steps: kept where it gives these very bytes in at most `most` steps.
pub fn judged(first: usize, reply: Reply, most: usize, out: &[u8], bytes: &[u8]) -> Trip
    ensures { trip_of result ≡ verdict first (told reply) most out.now bytes.now }
{
    match reply {
        Err(_) => Trip::Broken,
        Ok(Done { len, steps }) => {
            if most < steps {
                return Trip::Broken;
            }
            let front = &out[..len.min(out.len())];
            if shapes::same(front, bytes) {
                return Trip::Kept {
                    first,
                    second: steps,
                };
            }
            Trip::Broken
        }
    }
}
