//! Scopes, each made whole: the empty one, one of one variable, a plan's, a member's, and a scope with two variables more.
ghost use Rattle.std.specs.Prelude.{◌≡◌, ◌+◌, ◌-◌, ◌<◌, ◌≤◌};
ghost use Rattle.rules.specs.Numbers.{scratch_size, variable_limit};
ghost use Rattle.walk.specs.Scope.{no_variable, pushed, with_member, with_two, Stored, Spanned};

use scopes::Scope;
use value::Spans;

/// No variable.
pub fn none() -> Scope
    ensures { result ≡ no_variable }
{
    Scope {
        count: 0,
        starts: [0u16; rules::VARIABLES],
        lens: [0u8; rules::VARIABLES],
    }
}

/// One variable alone, whose value has `len` bytes from `start` on.
pub fn single(start: usize, len: usize) -> Scope
    requires { (start < scratch_size) × (1 ≤ len) × (len ≤ 256) }
    ensures { result ≡ pushed no_variable start len }
{
    let mut starts = [0u16; rules::VARIABLES];
    let mut lens = [0u8; rules::VARIABLES];
    starts[0] = start as u16;
    lens[0] = (len - 1) as u8;
    Scope {
        count: 1,
        starts,
        lens,
    }
}

/// A member, whose value has `len` bytes from `start` on, and the variable x alone.
pub fn member(scope: Scope, x: usize, start: usize, len: usize) -> Scope
    requires { (x < variable_limit) × (start < scratch_size) × (1 ≤ len) × (len ≤ 256) }
    ensures { result ≡ with_member scope x start len }
{
    let mut both = scope;
    both.count = 2;
    both.starts[0] = start as u16;
    both.starts[1] = scope.starts[x];
    both.lens[0] = (len - 1) as u8;
    both.lens[1] = scope.lens[x];
    both
}

/// Two variables more, whose values stand one after the other.
pub fn with_two(scope: Scope, start: usize, first: usize, second: usize) -> Scope
    requires { (scope.count + 2 ≤ variable_limit) × Stored start first second }
    ensures { result ≡ with_two scope start first second }
{
    let n = usize::from(scope.count);
    let mut more = scope;
    more.count = scope.count + 2;
    more.starts[n] = start as u16;
    more.starts[n + 1] = (start + first) as u16;
    more.lens[n] = (first - 1) as u8;
    more.lens[n + 1] = (second - 1) as u8;
    more
}

/// The k variables of a plan, whose values stand at its spans.
pub fn of_spans(k: usize, spans: Spans) -> Scope
    requires { k ≤ 16 }
    ensures { Spanned k spans.starts spans.lens result }
{
    let mut starts = [0u16; rules::VARIABLES];
    let mut lens = [0u8; rules::VARIABLES];
    for i in 0..k {
        starts[i] = spans.starts[i];
        lens[i] = stored(spans.lens[i]);
    }
    Scope {
        count: k as u16,
        starts,
        lens,
    }
}

// A length as a scope stores it: one less.
fn stored(len: u16) -> u8
    ensures { (1 ≤ len) × (len ≤ 256) → result ≡ len - 1 }
{
    if len == 0 {
        return 0;
    }
    ((len - 1) % 256) as u8
}
