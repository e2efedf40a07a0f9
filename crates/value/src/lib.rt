//! Values and their bytes (document 01 and docs/SHEETS.md, "Values").
#![tactic(auto)]

ghost use Rattle.std.specs.Prelude.{◌≡◌, Err, ◌+◌, ◌*◌, ◌/◌, ◌%◌, ◌≤◌, get_or};
ghost use Rattle.value.specs.Reader.{Reads, PartBegins, NumberBegins, answer, outcome};
ghost use Rattle.value.specs.Reading.{read_value, value, rest};
ghost use Rattle.value.specs.Numbered.{numbered};
ghost use Rattle.value.specs.Spans.{next_of, spans_of, view_of};

use refusal::Refusal;
use std::marker::Model;

/// Why bytes begin with no value.
#[derive(Clone, Copy, Debug, PartialEq, Eq)]
pub enum Fault {
    /// They end within it, a kind is unknown, a rest is no list, or a number of kind 06 is below 65,536.
    Malformed,
    /// It has over 256 bytes.
    TooLong,
}

// The most bytes that a value has.
const MOST: usize = 256;

// What the reader of a list answers, as one number: how many bytes, 1 to 256, or one of the two below for a fault. It calls itself for each list in
// a list, and a number goes back in a register, where a `Result` takes a place in the caller's frame (docs/PERFORMANCE.md).
#[derive(Drop)]
struct Taken {
    number: usize,
}

impl Model for Taken {
    ghost use Rattle.value.specs.Reader.{Read, answer};

    ghost Value = { Read };

    ghost view = { λ t. answer t.number };
}

const MALFORMED: Taken = Taken { number: 0 };

const TOO_LONG: Taken = Taken { number: 257 };

impl Taken {
    // The length or the fault.
    fn read(&self) -> Result<usize, Fault>
        ensures { result ≡ self.now }
    {
        match self.number {
            0 => Err(Fault::Malformed),
            257 => Err(Fault::TooLong),
            n => Ok(n),
        }
    }
}

/// The length of the value that the bytes begin with, 1 to 256.
pub fn read_value(s: &[u8]) -> Result<usize, Fault>
    ensures { result ≡ outcome (read_value s.now) }
{
    value(s, MOST)
}

// A value of any kind, of at most `room` bytes. A pair owes two values in place of one. Kinds are told by their bytes, as document 01's table has
// them: each is met in one place, where an enum would only name it again. It and the readers of numbers are inlined into the reader of a list, so that
// no `Result` of theirs stands in memory (docs/PERFORMANCE.md).
#[inline(always)]
#[cycle(list_part_value)]
fn value(s: &[u8], room: usize) -> Result<usize, Fault>
    requires { room ≤ 256 }
    ensures { Reads value s.now room result }
{
    let mut at = 0;
    let mut owed: usize = 1;
    // no `for`: where the next value begins comes from the one read
    while owed != 0 {
        if s.len() <= at {
            return Err(Fault::Malformed);
        }
        if room <= at {
            return Err(Fault::TooLong);
        }
        let kind = s[at];
        if kind < 2 {
            at += 1;
            owed -= 1;
            continue;
        }
        if kind == 5 {
            at += 1;
            owed += 1;
            continue;
        }
        at += part(&s[at..], room - at)?;
        owed -= 1;
    }
    Ok(at)
}

// A list or a number of either kind, of at most `room` bytes.
#[inline(always)]
#[cycle(list_part_value)]
fn part(s: &[u8], room: usize) -> Result<usize, Fault>
    requires { PartBegins s.now room }
    ensures { Reads value s.now room result }
{
    if s[0] < 4 {
        return list(s, room).read();
    }
    numeral(s, room)
}

// A number of either kind, of at most `room` bytes.
#[inline(always)]
fn numeral(s: &[u8], room: usize) -> Result<usize, Fault>
    requires { PartBegins s.now room × (4 ≤ get_or s.now 0 0) }
    ensures { Reads value s.now room result }
{
    match s[0] {
        4 => number_of::<3>(s, room),
        6 => number_of::<5>(s, room),
        _ => Err(Fault::Malformed),
    }
}

// A list, of at most `room` bytes, member by member.
#[cycle(list_part_value)]
fn list(s: &[u8], room: usize) -> Taken
    requires { room ≤ 256 }
    ensures { Reads rest s.now room result }
{
    let mut at = 0;
    // no `for`: where the next member begins comes from the one read
    while at < s.len() {
        if room <= at {
            return TOO_LONG;
        }
        let kind = s[at];
        if kind == 2 {
            return Taken { number: at + 1 };
        }
        if kind != 3 {
            return MALFORMED;
        }
        at += 1;
        match value(&s[at..], room - at) {
            Ok(n) => at += n,
            Err(Fault::Malformed) => return MALFORMED,
            Err(Fault::TooLong) => return TOO_LONG,
        }
    }
    MALFORMED
}

// A number that has so many bytes, its kind byte counted: 3 of kind 04, 5 of kind 06. Each is judged in turn, so that of the input's end and
// the room's the nearer one is met, the input's where they are one. One of kind 06 that is at most 65,535 is malformed at its last byte.
#[inline(always)]
fn number_of<const WIDTH: usize>(s: &[u8], room: usize) -> Result<usize, Fault>
    requires { NumberBegins WIDTH s.now room }
    ensures { Reads value s.now room result }
{
    if s.len() < WIDTH && s.len() <= room {
        return Err(Fault::Malformed);
    }
    if room < WIDTH {
        return Err(Fault::TooLong);
    }
    if WIDTH == 5 && number(s[1], s[2]) == 0 {
        return Err(Fault::Malformed);
    }
    Ok(WIDTH)
}

// The next of several values; `None` where the bytes end.
#[inline(always)]
#[tactic(auto, using(crate::proofs::Progress::next_none, crate::proofs::Progress::next_some))]
fn next_value(s: &[u8]) -> Option<Result<usize, Fault>>
    ensures { result ≡ next_of s.now }
{
    if s.is_empty() {
        return None;
    }
    Some(read_value(s))
}

/// Where the values of a plan stand: the start and the length of each, in bytes, with zeros behind the last. They are two arrays, since the
/// starts are handed on whole (crate `starts`), as C lends them; and of 16, since the core has no heap.
#[derive(Clone, Copy, Debug, PartialEq, Eq)]
pub struct Spans {
    pub starts: [u16; 16],
    pub lens: [u16; 16],
}

/// Reads a plan of k values, front to back. Over 16 are `SheetRange`; then come the plan's refusals.
pub fn read_plan(k: usize, s: &[u8]) -> Result<Spans, Refusal>
    ensures { numbered result ≡ spans_of k s.now }
{
    if 16 < k {
        return Err(Refusal::SheetRange);
    }
    let mut starts = [0u16; 16];
    let mut lens = [0u16; 16];
    let mut at = 0;
    for i in 0..k {
        match next_value(&s[at..]) {
            None => return Err(Refusal::PlanCount),
            Some(Err(Fault::Malformed)) => return Err(Refusal::PlanMalformed),
            Some(Err(Fault::TooLong)) => return Err(Refusal::PlanLong),
            Some(Ok(n)) => {
                starts[i] = at as u16;
                lens[i] = n as u16;
                at += n;
            }
        }
    }
    if at < s.len() {
        return Err(Refusal::PlanCount);
    }
    Ok(Spans { starts, lens })
}

/// Reads a view, one value with nothing behind it.
pub fn read_view(s: &[u8]) -> Result<(), Refusal>
    ensures { numbered result ≡ view_of s.now }
{
    match next_value(s) {
        None => Err(Refusal::ViewCount),
        Some(Err(Fault::Malformed)) => Err(Refusal::ViewMalformed),
        Some(Err(Fault::TooLong)) => Err(Refusal::ViewLong),
        Some(Ok(n)) => {
            if n < s.len() {
                return Err(Refusal::ViewCount);
            }
            Ok(())
        }
    }
}

/// A number of kind 04 from its two bytes, high byte first.
pub fn number(high: u8, low: u8) -> u16
    ensures { result ≡ 256 * high + low }
{
    u16::from_be_bytes([high, low])
}

/// The high byte of a number.
pub fn high(n: u16) -> u8
    ensures { result ≡ n / 256 }
{
    n.to_be_bytes()[0]
}

/// The low byte of a number.
pub fn low(n: u16) -> u8
    ensures { result ≡ n % 256 }
{
    n.to_be_bytes()[1]
}
