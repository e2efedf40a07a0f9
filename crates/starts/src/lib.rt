//! Where the values of a plan start, and a value handed out by its variable's number, with no reading from the front.
#![tactic(auto)]

ghost use Rattle.std.specs.Prelude.{◌≡◌, length};
ghost use Rattle.value.specs.Numbered.{numbered};
ghost use Rattle.starts.specs.Starts.{no_starts, load_of, proper, find_of, part_of};
ghost use Rattle.starts.specs.NewPlan.{plan_of, grown_by};

use refusal::Refusal;

/// Where each value of a plan starts: `count` numbers, at the front of `at`. Those that this program gives have zeros behind them; those
/// that a caller kept may be any numbers, and `find` judges them. It is an array with a count, since C lends it so.
#[derive(Clone, Copy, Debug, PartialEq, Eq)]
pub struct Starts {
    pub count: u8,
    pub at: [u16; 16],
}

/// Where a value stands in its plan: from byte `start` on, up to the byte before `end`.
#[derive(Clone, Copy, Debug, PartialEq, Eq)]
pub struct Place {
    pub start: usize,
    pub end: usize,
}

/// A plan that is put together value by value: how many bytes it has so far, and where its values start.
#[derive(Clone, Copy, Debug, PartialEq, Eq)]
pub struct NewPlan {
    pub len: usize,
    pub starts: Starts,
}

/// No start: what stands where a call is refused.
#[tactic(auto, unfolding(crate::specs::Starts::no_starts))]
pub fn none() -> Starts
    ensures { result ≡ no_starts }
{
    Starts {
        count: 0,
        at: [0; 16],
    }
}

/// The starts of a plan's values; or the sheet's refusal (10 to 14), then the plan's (20 to 22).
pub fn load(sheet: &[u8], plan: &[u8]) -> Result<Starts, Refusal>
    ensures { numbered result ≡ load_of sheet.now plan.now }
{
    let table = sheet::read_sheet(sheet)?;
    let spans = value::read_plan(table.k, plan)?;
    let count = table.k as u8;
    let at = spans.starts;
    Ok(Starts { count, at })
}

// Whether the starts are 1 to 16 numbers that rise from 0, all below the plan's length.
fn is_proper(starts: Starts, len: usize) -> bool
    ensures { result ≡ proper starts len }
{
    if starts.count == 0 {
        return false;
    }
    if 16 < starts.count {
        return false;
    }
    if starts.at[0] != 0 {
        return false;
    }
    let mut low = 0;
    for start in &starts.at[..usize::from(starts.count)] {
        let start = usize::from(*start);
        if start < low {
            return false;
        }
        if len <= start {
            return false;
        }
        low = start + 1;
    }
    true
}

/// Where the value of a variable stands in a plan of `len` bytes: from its start to the next, or to the plan's end. 24: the starts are
/// not 1 to 16 numbers that rise from 0, all below `len`; then 23: there is no such variable.
pub fn find(starts: Starts, len: usize, variable: usize) -> Result<Place, Refusal>
    ensures { numbered result ≡ find_of starts len variable }
{
    if !is_proper(starts, len) {
        return Err(Refusal::Starts);
    }
    let count = usize::from(starts.count);
    if count <= variable {
        return Err(Refusal::Variable);
    }
    let start = usize::from(starts.at[variable]);
    if variable + 1 == count {
        return Ok(Place { start, end: len });
    }
    let end = usize::from(starts.at[variable + 1]);
    Ok(Place { start, end })
}

/// The value of a variable, as the part of the plan's own bytes; the empty part, which no value is, where `find` refuses. `find` tells which refusal.
pub fn part(starts: Starts, plan: &[u8], variable: usize) -> &[u8]
    ensures { result.now ≡ part_of (find_of starts (length plan.now) variable) plan.now }
{
    match find(starts, plan.len(), variable) {
        Ok(place) => &plan[place.start..place.end],
        Err(_) => &plan[..0],
    }
}

/// A plan that has `count` values gets one of n bytes more, which starts at byte `start`, where the others end. Its start is written to `at`, and the
/// answer is where it ends. Nothing changes, and the answer is `start`, where there are 16 values, or would be over 65,535 bytes; it is no `None`,
/// since the one caller has fewer of both, and goes on with where its next value starts.
#[tactic(auto, unfolding(crate::specs::NewPlan::grown_by))]
pub fn grow(at: &mut [u16; 16], count: usize, start: usize, n: usize) -> usize
    ensures value { result ≡ (grown_by (plan_of count at.old start) n).len }
    ensures at_after { at.new ≡ (grown_by (plan_of count at.old start) n).starts.at }
{
    if 16 <= count {
        return start;
    }
    if 65535 < start {
        return start;
    }
    if 65535 - start < n {
        return start;
    }
    at[count] = start as u16;
    start + n
}
