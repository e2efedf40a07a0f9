//! A value's bytes taken apart: its shape, its two parts, what each test says to it, and whether two values are the same (document 01 and
//! docs/SHEETS.md, "Values" and "Tests").
#![tactic(auto)]

ghost use Rattle.std.specs.Prelude.{◌≡◌, ◌-◌, length, take, drop, leb, unwrap_or};
ghost use Rattle.shapes.specs.Needs.{Enough};
ghost use Rattle.shapes.specs.Parts.{shape_of, middle_of, first_part, second_part, part_where, kind_at, rest_kind, passes_bytes, same_bytes};

/// A value taken apart. A list with members and a pair hold the position where their second part starts.
#[derive(Clone, Copy, Debug, PartialEq, Eq)]
pub enum Shape {
    False,
    True,
    Empty,
    Front(usize),
    Number(u16),
    Pair(usize),
    Wide,
    Malformed,
}

/// The shape of the value that the bytes begin with; of a second part nothing is read. The kind is told by its byte, as document 01 asks.
pub fn shape_of(v: &[u8]) -> Shape
    ensures { result ≡ shape_of v.now }
{
    if v.len() == 0 {
        return Shape::Malformed;
    }
    match v[0] {
        0 => Shape::False,
        1 => Shape::True,
        2 => Shape::Empty,
        3 => match middle(v) {
            Some(at) => Shape::Front(at),
            None => Shape::Malformed,
        },
        4 => {
            if v.len() < 3 {
                return Shape::Malformed;
            }
            Shape::Number(value::number(v[1], v[2]))
        }
        5 => match middle(v) {
            Some(at) => Shape::Pair(at),
            None => Shape::Malformed,
        },
        6 => Shape::Wide,
        _ => Shape::Malformed,
    }
}

/// The byte where the second part of a list with members or of a pair starts; `None` where the bytes begin with neither, or the first part
/// is no value.
pub fn middle(v: &[u8]) -> Option<usize>
    ensures { result ≡ middle_of (shape_of v.now) }
{
    if v.len() == 0 {
        return None;
    }
    match v[0] {
        3 | 5 => match value::read_value(&v[1..]) {
            Ok(n) => Some(1 + n),
            Err(_) => None,
        },
        _ => None,
    }
}

// The bytes from `from` up to `to`; none where that is out of range.
#[tactic(auto, using(crate::proofs::Answers::no_part), unfolding(crate::specs::Parts::part_where))]
fn part(v: &[u8], from: usize, to: usize) -> &[u8]
    ensures { result.now ≡ part_where (leb to (length v.now)) (take (to - from) (drop from v.now)) }
{
    if from <= to && to <= v.len() {
        &v[from..to]
    } else {
        &v[..0]
    }
}

/// The first part of a value whose second part starts at `at`; no byte where `at` is 0 or out of range.
#[tactic(auto, unfolding(crate::specs::Parts::first_part))]
pub fn first_part(v: &[u8], at: usize) -> &[u8]
    ensures { result.now ≡ first_part v.now at }
{
    part(v, 1, at)
}

/// The second part of a value, which starts at `at`; no byte where `at` is out of range.
#[tactic(auto, using(crate::proofs::Answers::part_to_end))]
pub fn second_part(v: &[u8], at: usize) -> &[u8]
    ensures { result.now ≡ second_part v.now at }
{
    part(v, at, v.len())
}

// The byte at `at`; `None` where none is.
fn kind_at(v: &[u8], at: usize) -> Option<u8>
    ensures { unwrap_or result 255 ≡ kind_at v.now at }
{
    v.get(at).copied()
}

// The kind byte of a list's rest: the byte that follows the first member. Nothing behind it is read; `None` where it is not there.
fn rest_kind(v: &[u8]) -> Option<u8>
    ensures { unwrap_or result 255 ≡ rest_kind v.now }
{
    if kind_at(v, 0) != Some(3) {
        return None;
    }
    kind_at(v, middle(v)?)
}

/// Whether a test says yes to a value: 0 anything, 1 empty list, 2 list with members, 3 False, 4 True, 5 exactly one member, 6 two or more; no
/// other number is a test. Tests 1 to 4 read the kind byte, 5 and 6 of a list with members also the first and the byte that follows it. Tests
/// are told by their numbers, as document 01 asks.
pub fn passes(test: u8, v: &[u8]) -> bool
    ensures value { result ≡ passes_bytes test v.now }
    ensures enough { Enough test v.now result }
{
    match test {
        0 => true,
        1 => kind_at(v, 0) == Some(2),
        2 => kind_at(v, 0) == Some(3),
        3 => kind_at(v, 0) == Some(0),
        4 => kind_at(v, 0) == Some(1),
        5 => rest_kind(v) == Some(2),
        6 => rest_kind(v) == Some(3),
        _ => false,
    }
}

/// Whether two values are the same: equal values are equal bytes.
#[tactic(auto, using(crate::proofs::Answers::same_pointwise))]
pub fn same(a: &[u8], b: &[u8]) -> bool
    ensures { result ≡ same_bytes a.now b.now }
{
    a == b
}
