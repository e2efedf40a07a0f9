//! What the programs' inputs are made of: fields taken apart, and the job that they are.
#![tactic(auto)]

ghost use Rattle.std.specs.Prelude.{◌≡◌};
ghost use Rattle.inputs.specs.Format.{job_of};

mod fields;
mod reading;

pub use fields::{
    Fields, byte_at, kept, number_at, part_at, plan_of, rest_from, sheet_of, starts_in,
    take_fields, view_of,
};
pub use reading::read_front;

/// The most bytes of an input; a longer one is refused with 61.
pub const INPUT: usize = 8_192;

/// A get or a put, with its fields.
#[derive(Clone, Copy, Debug, PartialEq, Eq)]
pub enum Job {
    Get(Fields),
    Put(Fields),
}

/// The job that an input is: its fields, or none where a part is cut, or a get has bytes behind its plan.
pub fn parse(input: &[u8]) -> Option<Job>
    ensures { result ≡ job_of input.now }
{
    let fields = take_fields(input)?;
    match byte_at(input, 0) {
        b'G' => {
            if input.len() == 8 + fields.sheet + fields.plan {
                return Some(Job::Get(fields));
            }
            None
        }
        b'P' => Some(Job::Put(fields)),
        _ => None,
    }
}
