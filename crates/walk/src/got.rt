//! What is done behind a call of get, with its answer: the value's shape, its move to the top, and what a node's own rule makes of it.
ghost use Rattle.std.specs.Prelude.{◌≡◌, false, ◌+◌, ◌-◌, ◌≤◌, ◌<◌, length};
ghost use Rattle.outcome.specs.Outcome.{is_refusal, len_of, start_of};
ghost use Rattle.shapes.specs.Parts.{shape_of, passes_bytes};
ghost use Rattle.walk.specs.Arena.Parts.{part};
ghost use Rattle.walk.specs.Members.{first_bytes_of};
ghost use Rattle.walk.specs.Get.Top.{Movable, Brought};
ghost use Rattle.walk.specs.Get.Branch.{Judgeable, Judged};
ghost use Rattle.walk.specs.Get.Two.{Joinable, Joined};
ghost use Rattle.walk.specs.Get.Add.{Addable, Added};

use crate::bytes::copy;
use outcome::Answer;
use refusal::Refusal;
use shapes::Shape;

/// The shape of a value that was got.
pub fn shape_at(arena: &[u8], got: Answer) -> Shape
    requires { start_of got + len_of got ≤ length arena.now }
    ensures { result ≡ shape_of (part arena.now (start_of got) (len_of got)) }
{
    let start = got.start();
    let end = start + got.len();
    shapes::shape_of(&arena[start..end])
}

/// How many bytes the first member of the list that stands from `start` to `end` takes, with the 03 before it; 0 of an empty list.
pub fn first_bytes(arena: &[u8], start: usize, end: usize) -> usize
    requires { (start ≤ end) × (end ≤ length arena.now) }
    ensures { result ≡ first_bytes_of (shape_of (part arena.now start (end - start))) }
{
    shapes::middle(&arena[start..end]).unwrap_or(0)
}

/// A value that was got, brought to the top of the stack.
pub fn bring(arena: &mut [u8], got: Answer, top: usize) -> Answer
    requires { is_refusal got ≡ false → Movable arena.old top got }
    ensures { Brought top got arena.old arena.new result }
{
    if got.is_refused() {
        return got;
    }
    let len = got.len();
    copy(arena, got.start(), top, len);
    Answer::done(top, len, got.steps())
}

// Whether a test says yes to the value that stands from `start` to `end`. The test 0 asks nothing, and no value is looked at for it.
fn says(arena: &[u8], test: u8, start: usize, end: usize) -> bool
    requires { (start ≤ end) × (end ≤ length arena.now) }
    ensures { result ≡ passes_bytes «test» (part arena.now start (end - start)) }
{
    if test == 0 {
        return true;
    }
    shapes::passes(test, &arena[start..end])
}

/// A branch that was got, judged by its test; it stands no higher than `top` then.
pub fn judge(arena: &mut [u8], got: Answer, test: u8, top: usize) -> Answer
    requires { is_refusal got ≡ false → Judgeable arena.old got }
    ensures { Judged «test» top got arena.old arena.new result }
{
    if got.is_refused() {
        return got;
    }
    let start = got.start();
    let len = got.len();
    let end = start + len;
    if !says(arena, test, start, end) {
        return Answer::refused(Refusal::Test);
    }
    if start <= top {
        return got;
    }
    copy(arena, start, top, len);
    Answer::done(top, len, got.steps())
}

/// Two values that were got one after the other behind a byte of their kind at `top`: the list or the pair that they make.
pub fn joined(arena: &[u8], kind: u8, top: usize, first: Answer, second: Answer) -> Answer
    requires { is_refusal second ≡ false → Joinable arena.now top first }
    ensures { Joined arena.now kind top first second result }
{
    if second.is_refused() {
        return second;
    }
    let f = first.len();
    let mid = top + 1 + f;
    if decisions::unfit(kind, arena[mid]) {
        return Answer::refused(Refusal::ValueKind);
    }
    let len = 1 + f + second.len();
    if 256 < len {
        return Answer::refused(Refusal::ValueLong);
    }
    Answer::done(top, len, first.steps() + second.steps())
}

/// An amount added to a number that was got and stands at `top`.
pub fn added(arena: &mut [u8], got: Answer, amount: u16, top: usize) -> Answer
    requires { is_refusal got ≡ false → Addable arena.old got top }
    ensures { Added amount got top arena.old arena.new result }
{
    if got.is_refused() {
        return got;
    }
    let Shape::Number(n) = shape_at(arena, got) else {
        return Answer::refused(Refusal::ValueKind);
    };
    if 65535 - n < amount {
        return Answer::refused(Refusal::Sum);
    }
    let [high, low] = (n + amount).to_be_bytes();
    arena[top + 1] = high;
    arena[top + 2] = low;
    got
}
