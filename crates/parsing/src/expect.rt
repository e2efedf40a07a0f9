//! Tokens that are expected: a mark, a word, a new name, a variable, a section's name, a test, a number. Each function takes a cursor and gives one behind
//! the token, or a fault; a fault that it is given it hands on.
ghost use Rattle.std.specs.Prelude.{◌≡◌, true, ◌+◌, ◌≤◌, ◌<◌, length, drop};
ghost use Rattle.tokens.specs.Ahead.{letter_first};
ghost use Rattle.syntax.specs.Reader as reader;
ghost use Rattle.syntax.specs.Reader.{zero_first};
ghost use Rattle.tokens.specs.Tokens.{word_of};
ghost use Rattle.lexing.specs.Lexing.{Shape, token_at, part};
ghost use Rattle.lexing.specs.declared.Kind.TheVariants.{Word, Hash};
ghost use Rattle.parsing.specs.Names.{found};
ghost use Rattle.parsing.specs.Cursor.{Behind, With, Goes};
ghost use Rattle.parsing.specs.Expect.{is_symbol, marked, Again, Binds, Digits, Numbers, ByNumber, IsVariable, IsTest};
ghost use Rattle.parsing.specs.Expect.{resolve_by, callee_of, Resolves, IsCallee, scope_at};

use crate::cursor::{Cursor, fault, read};
use crate::names::{is_name, is_same, is_word, lookup, word};
use lexing::{Class, Kind, Lexeme, next};

/// The names in scope, `many` of them from `base` on; and the detail for a name that is none of them.
#[derive(Clone, Copy, Debug, PartialEq, Eq)]
pub struct Scope {
    pub base: usize,
    pub many: usize,
    pub lost: u8,
}

/// This mark.
pub fn symbol(text: &[u8], c: Cursor, mark: Kind, detail: u8) -> Cursor
    requires { is_symbol mark ≡ true }
    ensures { Goes text.now (Behind text.now) (reader.symbol (marked mark) detail) c result }
{
    if c.code != 0 {
        return c;
    }
    let t = next(text, c.at);
    if !t.is(mark) {
        return fault(c, 90, t.at, detail);
    }
    read(c, t.end, 0, 0)
}

/// This word.
pub fn keyword(text: &[u8], c: Cursor, w: &[u8], detail: u8) -> Cursor
    requires { 0 < length w.now }
    ensures { Goes text.now (Behind text.now) (reader.keyword w.now detail) c result }
{
    if c.code != 0 {
        return c;
    }
    let t = next(text, c.at);
    if !is_word(text, t, w) {
        return fault(c, 90, t.at, detail);
    }
    read(c, t.end, 0, 0)
}

/// The name at a place once more.
pub fn again(text: &[u8], c: Cursor, place: usize, detail: u8) -> Cursor
    ensures { Again text.now place detail c result }
{
    if c.code != 0 {
        return c;
    }
    let t = next(text, c.at);
    if !t.is(Kind::Word) {
        return fault(c, 90, t.at, detail);
    }
    if !is_same(text, place, t) {
        return fault(c, 90, t.at, detail);
    }
    read(c, t.end, 0, 0)
}

/// A name that is none of those in scope, or `_`; it is noted behind them.
pub fn bind(text: &[u8], names: &mut [usize], sc: Scope, c: Cursor) -> Cursor
    requires { sc.base + sc.many < length names.old }
    ensures { Binds text.now names.old sc.base sc.many c names.new result }
{
    if c.code != 0 {
        return c;
    }
    let t = next(text, c.at);
    if is_word(text, t, b"_") {
        names[sc.base + sc.many] = t.at;
        return read(c, t.end, t.at, 0);
    }
    if !is_name(text, t) {
        return fault(c, 90, t.at, 2);
    }
    if lookup(text, names, sc.base, sc.many, t).is_some() {
        return fault(c, 92, t.at, 50);
    }
    names[sc.base + sc.many] = t.at;
    read(c, t.end, t.at, 0)
}

// Whether a letter stands at a place.
#[tactic(auto, using(crate::specs::Expect::letter_none))]
fn letter_at(text: &[u8], at: usize) -> bool
    ensures { result ≡ letter_first (drop at text.now) }
{
    if text.len() <= at {
        return false;
    }
    matches!(Class::of(text[at]), Class::Letter)
}

// Whether a 0 stands in front of other digits.
fn zero_first(text: &[u8], from: usize, end: usize) -> bool
    requires { (from ≤ end) × (end ≤ length text.now) }
    ensures { result ≡ zero_first (part text.now from end) }
{
    if end - from < 2 {
        return false;
    }
    text[from] == b'0'
}

/// The number that these digits say, at most `most`; no letter may stand behind them, and no 0 in front.
pub fn number(text: &[u8], from: usize, end: usize, most: usize, detail: u8, c: Cursor) -> Cursor
    requires { Digits text.now from end most }
    ensures { Numbers text.now from end most detail c result }
{
    if zero_first(text, from, end) {
        return fault(c, 93, from + 1, 61);
    }
    let mut v = 0;
    for i in from..end {
        let digit = text[i] - b'0';
        let w = 10 * v + usize::from(digit);
        if most < w {
            return fault(c, 93, i, detail);
        }
        v = w;
    }
    if letter_at(text, end) {
        return fault(c, 93, end, 62);
    }
    read(c, end, v, 0)
}

// The variable whose number stands behind `#`.
fn by_number(text: &[u8], t: Lexeme, c: Cursor) -> Cursor
    requires { Shape text.now t × (t.kind ≡ Hash) }
    ensures { ByNumber text.now t c result }
{
    if t.end - t.at < 2 {
        return fault(c, 90, t.at + 1, 12);
    }
    number(text, t.at + 1, t.end, 255, 64, c)
}

/// A variable: its name, or `#` and its number.
pub fn variable(text: &[u8], names: &[usize], sc: Scope, c: Cursor) -> Cursor
    requires { sc.base + sc.many ≤ length names.now }
    ensures { Goes text.now (With text.now (IsVariable sc))
        (reader.variable (scope_at text.now names.now sc)) c result }
{
    if c.code != 0 {
        return c;
    }
    let t = next(text, c.at);
    if t.is(Kind::Hash) {
        return by_number(text, t, c);
    }
    if !is_name(text, t) {
        return fault(c, 90, t.at, 11);
    }
    match lookup(text, names, sc.base, sc.many, t) {
        Some(x) => read(c, t.end, x, 0),
        None => fault(c, 91, t.at, sc.lost),
    }
}

/// The number of the section that a name means: by the table of names, whose first entry is none; with no table 0.
pub fn resolved(text: &[u8], table: &[usize], t: Lexeme, c: Cursor) -> Cursor
    requires { Shape text.now t × (t.kind ≡ Word) × (length table.now ≤ 9) }
    ensures { Resolves text.now table.now t c result }
{
    if table.len() == 0 {
        return read(c, c.at, 0, 0);
    }
    match lookup(text, table, 1, table.len() - 1, t) {
        Some(x) => read(c, c.at, x, 0),
        None => fault(c, 91, t.at, 43),
    }
}

/// The name of a section, and its number.
pub fn callee(text: &[u8], table: &[usize], c: Cursor) -> Cursor
    requires { length table.now ≤ 9 }
    ensures { Goes text.now (With text.now IsCallee) (callee_of (resolve_by text.now table.now)) c result }
{
    if c.code != 0 {
        return c;
    }
    let t = next(text, c.at);
    if !is_name(text, t) {
        return fault(c, 90, t.at, 7);
    }
    resolved(text, table, t, read(c, t.end, 0, 0))
}

// The number of the test that a word names.
#[tactic(auto, unfolding(syntax::specs::Reader::find, tokens::specs::Tokens::same))]
fn test_named(word: &[u8]) -> Option<usize>
    ensures { result ≡ found (reader.find reader.tests word.now) }
{
    match word {
        b"any" => Some(0),
        b"empty" => Some(1),
        b"members" => Some(2),
        b"false" => Some(3),
        b"true" => Some(4),
        b"one" => Some(5),
        b"many" => Some(6),
        _ => None,
    }
}

// The number of a test.
fn test_number(text: &[u8], t: Lexeme) -> Option<usize>
    requires { Shape text.now t }
    ensures { result ≡ found (reader.find reader.tests (word_of (token_at text.now t))) }
{
    test_named(word(text, t))
}

/// A test, if `with` stands there; and the detail for what must follow, `bare` where there is none and `after` behind one.
pub fn test(text: &[u8], c: Cursor, bare: u8, after: u8) -> Cursor
    ensures { Goes text.now (With text.now IsTest) (reader.test bare after) c result }
{
    if c.code != 0 {
        return c;
    }
    let t = next(text, c.at);
    if !is_word(text, t, b"with") {
        return read(c, c.at, 0, bare);
    }
    let u = next(text, t.end);
    match test_number(text, u) {
        Some(n) => read(c, u.end, n, after),
        None => fault(c, 90, u.at, 23),
    }
}
