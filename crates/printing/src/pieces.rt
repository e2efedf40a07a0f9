//! The small parts of a text: names, numbers, tests, lines and the blanks between.
ghost use Rattle.std.specs.Prelude.{◌≡◌, [], ◌∷◌, ◌++◌, ◌+◌, ◌≤◌, ◌<◌, length, replicate};
ghost use Rattle.report.specs.Writing.{Wrote};
ghost use Rattle.tokens.specs.Laid.{spelled};
ghost use Rattle.syntax.specs.Printer.{called, part_name, variable_said, line, or_line, unless_plain};
ghost use Rattle.printing.specs.Pieces.{is_sent, reach_of, Bounded, test_text, call_text, binders_text, empty_text, front_text, first_text, rest_text};
ghost use Rattle.printing.specs.Pieces.{each_text, with_text};

use report::{byte, bytes, decimal, place};

/// The name of the first variable in scope: `a`; or `sent` in a default, where it is what was sent.
#[derive(Clone, Copy, Debug, PartialEq, Eq)]
pub enum First {
    A,
    Sent,
}

/// How far names reach, and how deep a line stands: the number of variables in scope, the name of the first, and the blanks before a line.
#[derive(Clone, Copy, Debug, PartialEq, Eq)]
pub struct Scope {
    pub count: usize,
    pub first: First,
    pub indent: usize,
}

/// The name of variable x, where this is the first one's.
pub fn name(first: First, x: usize, out: &mut [u8], at: usize) -> usize
    ensures { Wrote (called (is_sent first) x) at out.old out.new result }
{
    if x == 0 {
        return match first {
            First::A => byte(out, at, b'a'),
            First::Sent => bytes(out, at, b"sent"),
        };
    }
    let end = byte(out, at, 97 + (x % 26) as u8);
    if x < 26 {
        return end;
    }
    decimal(out, end, x / 26)
}

/// Variable x: by its name, or `#` and its number where it is out of scope.
pub fn variable(scope: Scope, x: usize, out: &mut [u8], at: usize) -> usize
    ensures { Wrote (spelled (variable_said (reach_of scope) x)) at out.old out.new result }
{
    if x < scope.count {
        return name(scope.first, x, out, at);
    }
    let end = byte(out, at, b'#');
    decimal(out, end, x)
}

/// The name of section i.
pub fn part(i: usize, out: &mut [u8], at: usize) -> usize
    ensures { Wrote (part_name i) at out.old out.new result }
{
    let end = bytes(out, at, b"part");
    decimal(out, end, i)
}

/// So many blanks.
pub fn blanks(n: usize, out: &mut [u8], at: usize) -> usize
    ensures { Wrote (replicate n 32) at out.old out.new result }
{
    let start = place(out, at);
    let room = out.len() - start;
    let count = n.min(room);
    out[start..start + count].fill(b' ');
    start + count
}

/// A new line, indented by so many blanks, but at most 32.
pub fn line(indent: usize, out: &mut [u8], at: usize) -> usize
    ensures { Wrote (line indent) at out.old out.new result }
{
    let end = byte(out, at, b'\n');
    blanks(indent.min(32), out, end)
}

// `plain` below is the mark of a node as it stands in the table of marks: an enum of two layouts would be made of it at each call, and is no plainer.

/// The blanks before what stands on the same line, or a new line.
pub fn or_line(plain: bool, gap: &[u8], indent: usize, out: &mut [u8], at: usize) -> usize
    ensures { Wrote (or_line plain gap.now indent) at out.old out.new result }
{
    if plain {
        return bytes(out, at, gap);
    }
    line(indent, out, at)
}

/// A mark, and a blank behind it where what it opens has a case in it.
pub fn open_mark(plain: bool, mark: u8, out: &mut [u8], at: usize) -> usize
    ensures { Wrote (mark ∷ unless_plain plain) at out.old out.new result }
{
    let end = byte(out, at, mark);
    if plain {
        return end;
    }
    byte(out, end, b' ')
}

/// A mark, and a blank before it where what it closes has a case in it.
pub fn close_mark(plain: bool, mark: u8, out: &mut [u8], at: usize) -> usize
    ensures { Wrote (unless_plain plain ++ (mark ∷ [])) at out.old out.new result }
{
    if plain {
        return byte(out, at, mark);
    }
    let end = byte(out, at, b' ');
    byte(out, end, mark)
}

/// A comma and a blank, on a line of their own where there is a case.
pub fn comma(plain: bool, indent: usize, out: &mut [u8], at: usize) -> usize
    ensures { Wrote (or_line plain [] indent ++ (44 ∷ 32 ∷ [])) at out.old out.new result }
{
    let end = or_line(plain, b"", indent, out, at);
    bytes(out, end, b", ")
}

/// The test of a branch; `any` is left out.
pub fn test(t: u8, out: &mut [u8], at: usize) -> usize
    ensures { Wrote (test_text t) at out.old out.new result }
{
    match t {
        0 => place(out, at),
        1 => bytes(out, at, b" with empty"),
        2 => bytes(out, at, b" with members"),
        3 => bytes(out, at, b" with false"),
        4 => bytes(out, at, b" with true"),
        5 => bytes(out, at, b" with one"),
        _ => bytes(out, at, b" with many"),
    }
}

/// A call.
pub fn call(
    section: usize,
    first: usize,
    second: usize,
    scope: Scope,
    out: &mut [u8],
    at: usize,
) -> usize
    ensures { Wrote (call_text (reach_of scope) section first second) at out.old out.new result }
{
    let mut end = part(section, out, at);
    end = byte(out, end, b'(');
    end = variable(scope, first, out, end);
    end = bytes(out, end, b", ");
    end = variable(scope, second, out, end);
    byte(out, end, b')')
}

/// How long the name of variable x is.
pub fn name_length(first: First, x: usize) -> usize
    requires { x < 2600 }
    ensures value { result ≡ length (called (is_sent first) x) }
    ensures upper_bound { result ≤ 4 }
{
    let mut word = [0u8; 4];
    name(first, x, &mut word, 0)
}

/// The two variables of a `let`, as far as the `=` and the blank behind it.
pub fn binders(scope: Scope, out: &mut [u8], at: usize) -> usize
    requires { Bounded scope }
    ensures { Wrote (binders_text (reach_of scope)) at out.old out.new result }
{
    let mut end = bytes(out, at, b"let (");
    end = name(scope.first, scope.count, out, end);
    end = bytes(out, end, b", ");
    end = name(scope.first, scope.count + 1, out, end);
    bytes(out, end, b") = ")
}

/// Behind the subject of a case on a list, as far as the first arrow, which stands below the second.
pub fn empty_arrow(scope: Scope, out: &mut [u8], at: usize) -> usize
    requires { Bounded scope }
    ensures { Wrote (empty_text (reach_of scope) scope.indent) at out.old out.new result }
{
    let first = name_length(scope.first, scope.count);
    let rest = name_length(scope.first, scope.count + 1);
    let mut end = bytes(out, at, b" of");
    end = line(scope.indent + 2, out, end);
    end = bytes(out, end, b"[]");
    end = blanks(first + rest + 4, out, end);
    bytes(out, end, b"->")
}

/// The two variables of a case on a list, and the arrow behind them.
pub fn front_arrow(scope: Scope, out: &mut [u8], at: usize) -> usize
    requires { Bounded scope }
    ensures { Wrote (front_text (reach_of scope) scope.indent) at out.old out.new result }
{
    let mut end = line(scope.indent + 2, out, at);
    end = byte(out, end, b'[');
    end = name(scope.first, scope.count, out, end);
    end = bytes(out, end, b" | ");
    end = name(scope.first, scope.count + 1, out, end);
    bytes(out, end, b"] ->")
}

/// The default of the first of the two, as far as its `=`.
pub fn first_default(scope: Scope, out: &mut [u8], at: usize) -> usize
    requires { Bounded scope }
    ensures { Wrote (first_text (reach_of scope) scope.indent) at out.old out.new result }
{
    let mut end = line(scope.indent + 4, out, at);
    end = bytes(out, end, b"default ");
    end = name(scope.first, scope.count, out, end);
    bytes(out, end, b" =")
}

/// The default of the other, as far as its `=`.
pub fn rest_default(scope: Scope, out: &mut [u8], at: usize) -> usize
    requires { Bounded scope }
    ensures { Wrote (rest_text (reach_of scope)) at out.old out.new result }
{
    let mut end = bytes(out, at, b", ");
    end = name(scope.first, scope.count + 1, out, end);
    bytes(out, end, b" =")
}

/// Bytes on a new line.
pub fn on_line(indent: usize, word: &[u8], out: &mut [u8], at: usize) -> usize
    ensures { Wrote (line indent ++ word.now) at out.old out.new result }
{
    let end = line(indent, out, at);
    bytes(out, end, word)
}

/// An `each`, as far as its list.
pub fn each_open(section: usize, out: &mut [u8], at: usize) -> usize
    ensures { Wrote (each_text section) at out.old out.new result }
{
    let mut end = bytes(out, at, b"each ");
    end = part(section, out, end);
    byte(out, end, b'(')
}

/// Behind the list of an `each`, as far as its default.
pub fn each_default(scope: Scope, x: usize, out: &mut [u8], at: usize) -> usize
    ensures { Wrote (with_text (reach_of scope) x) at out.old out.new result }
{
    let mut end = bytes(out, at, b", ");
    end = variable(scope, x, out, end);
    bytes(out, end, b") default ")
}
