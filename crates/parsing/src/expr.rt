//! Expressions: a function for each construct of the grammar. Each takes what is lent (the text; the table of the sections' names; the names in
//! scope, places in the text; the nodes' slots), the scope, and a cursor whose count is the number of the construct's own node. A node is stored behind
//! all below it, when the numbers of its children are known.
ghost use Rattle.std.specs.Prelude.{◌≡◌, true, [], ◌+◌, ◌*◌, ◌≤◌, ◌<◌, length};
ghost use Rattle.std.proofs.lemmas.List.Edits.{sets};
ghost use Rattle.syntax.specs.Reader.{begin_of, word_begin};
ghost use Rattle.lexing.specs.Lexing.{Shape, token_at};
ghost use Rattle.lexing.specs.declared.Kind.TheVariants.{Word};
ghost use Rattle.parsing.specs.declared.expr.Begin.TheVariants.{Name, Number};
ghost use Rattle.parsing.specs.Cursor.{entered};
ghost use Rattle.parsing.specs.Nodes.{Kept};
ghost use Rattle.parsing.specs.Expect.{is_symbol, marked};
ghost use Rattle.parsing.specs.Expressions.{begin_named, key_named, row_of, Constant, Leafy, Var, Call};
ghost use Rattle.parsing.specs.Constructs.{Ready, Inner, Begun, Cased, Two, Expr, Shaped, Pair, Listed, Front, Back, Let, Each, Case};
ghost use Rattle.parsing.specs.Constructs.{with_two, Branches, Branch, Default, Truth, Lists};

use crate::cursor::{Cursor, enter, fault, read};
use crate::expect::{
    Scope, again, bind, callee, keyword, number, resolved, symbol, test, variable,
};
use crate::names::{is_free, is_word, word};
use crate::nodes::store;
use lexing::{Kind, Lexeme, next};

const MOST: usize = 4_294_967_295;

/// What an expression begins with.
#[derive(Clone, Copy, Debug, PartialEq, Eq)]
enum Begin {
    False,
    True,
    Let,
    Case,
    Each,
    Pair,
    List,
    Name,
    Hash,
    Number,
}

// What an expression begins with that begins with this word of the language.
#[tactic(auto, unfolding(tokens::specs::Tokens::same))]
fn key_begins(word: &[u8]) -> Option<Begin>
    ensures { result ≡ key_named word.now }
{
    match word {
        b"false" => Some(Begin::False),
        b"true" => Some(Begin::True),
        b"let" => Some(Begin::Let),
        b"case" => Some(Begin::Case),
        b"each" => Some(Begin::Each),
        _ => None,
    }
}

// What an expression begins with that begins with this word.
#[tactic(auto, using(crate::specs::Expressions::begin_name, crate::specs::Expressions::begin_key))]
fn word_begins(word: &[u8]) -> Option<Begin>
    ensures { result ≡ begin_named (word_begin word.now) }
{
    if is_free(word) {
        return Some(Begin::Name);
    }
    key_begins(word)
}

// What an expression begins with that begins with this token.
#[tactic(auto, using(crate::specs::Expressions::begin_tokens))]
fn begins(text: &[u8], t: Lexeme) -> Option<Begin>
    requires { Shape text.now t }
    ensures { result ≡ begin_named (begin_of (token_at text.now t)) }
{
    match t.kind {
        Kind::Word => word_begins(word(text, t)),
        Kind::Digits => Some(Begin::Number),
        Kind::Hash => Some(Begin::Hash),
        Kind::Mark(b'(') => Some(Begin::Pair),
        Kind::Mark(b'[') => Some(Begin::List),
        _ => None,
    }
}

// A node without fields.
fn bare(slots: &mut [u8], c: Cursor, kind: u8) -> Cursor
    requires { (c.count < 200) × (length slots.old ≡ 1600) }
    ensures value { result ≡ entered c }
    ensures slots_after { slots.new ≡ sets slots.old (8 * c.count) (row_of kind []) }
{
    store(slots, c.count, [kind, 0, 0, 0, 0, 0, 0, 0]);
    enter(c)
}

// A constant number.
fn constant(slots: &mut [u8], c: Cursor) -> Cursor
    requires { (c.count < 200) × (length slots.old ≡ 1600) }
    ensures value { result ≡ entered c }
    ensures constant { c.found ≤ 4294967295 → Constant slots.old c.count c.found slots.new }
    ensures kept { Kept c.count slots.old slots.new }
{
    let v = c.found;
    let low = (v % 256) as u8;
    let third = (v / 256 % 256) as u8;
    if v <= 65535 {
        store(slots, c.count, [0x14, third, low, 0, 0, 0, 0, 0]);
        return enter(c);
    }
    let second = (v / 256 / 256 % 256) as u8;
    let high = (v / 256 / 256 / 256 % 256) as u8;
    store(slots, c.count, [0x1D, high, second, third, low, 0, 0, 0]);
    enter(c)
}

// A variable.
fn var(text: &[u8], names: &[usize], slots: &mut [u8], sc: Scope, c: Cursor) -> Cursor
    requires { Leafy (length names.now) (length slots.old) sc c }
    ensures { Var text.now names.now slots.old sc c slots.new result }
{
    let x = variable(text, names, sc, c);
    store(
        slots,
        c.count,
        [0x10, (x.found % 256) as u8, 0, 0, 0, 0, 0, 0],
    );
    enter(x)
}

// A call, behind its bracket; t is the section's name.
fn call(
    text: &[u8],
    table: &[usize],
    names: &[usize],
    slots: &mut [u8],
    sc: Scope,
    t: Lexeme,
    c: Cursor,
) -> Cursor
    requires { Leafy (length names.now) (length slots.old) sc c × Shape text.now t × (t.kind ≡ Word) × (length table.now ≤ 9) }
    ensures { Call text.now table.now names.now slots.old sc t c slots.new result }
{
    let w = resolved(text, table, t, c);
    let x = variable(text, names, sc, w);
    let comma = symbol(text, x, Kind::Mark(b','), 9);
    let y = variable(text, names, sc, comma);
    let end = symbol(text, y, Kind::Mark(b')'), 10);
    store(
        slots,
        c.count,
        [
            0x1A,
            (w.found % 256) as u8,
            (x.found % 256) as u8,
            (y.found % 256) as u8,
            0,
            0,
            0,
            0,
        ],
    );
    enter(end)
}

/// Two new names with a mark between them, noted behind those in scope.
pub fn two(text: &[u8], names: &mut [usize], sc: Scope, c: Cursor, mark: Kind, detail: u8) -> Cursor
    requires { (sc.base + sc.many + 1 < length names.old) × (is_symbol mark ≡ true) }
    ensures { Two text.now names.old sc (marked mark) detail c names.new result }
{
    let x = bind(text, names, sc, c);
    let m = symbol(text, x, mark, detail);
    let wider = Scope {
        base: sc.base,
        many: sc.many + 1,
        lost: sc.lost,
    };
    bind(text, names, wider, m)
}

/// An expression.
#[cycle(expr)]
pub fn expr(
    text: &[u8],
    table: &[usize],
    names: &mut [usize],
    slots: &mut [u8],
    sc: Scope,
    c: Cursor,
) -> Cursor
    requires { Ready (length table.now) (length names.old) (length slots.old) (sc.base + sc.many) c }
    ensures { Expr text.now table.now names.old slots.old sc c names.new slots.new result }
{
    if c.code != 0 {
        return c;
    }
    let t = next(text, c.at);
    let Some(b) = begins(text, t) else {
        return fault(c, 90, t.at, 5);
    };
    if c.count == 200 {
        return fault(c, 94, t.at, 72);
    }
    shaped(text, table, names, slots, sc, t, b, c)
}

// An expression, by what it begins with.
#[cycle(expr)]
fn shaped(
    text: &[u8],
    table: &[usize],
    names: &mut [usize],
    slots: &mut [u8],
    sc: Scope,
    t: Lexeme,
    b: Begin,
    c: Cursor,
) -> Cursor
    requires { Inner (length table.now) (length names.old) (length slots.old) (sc.base + sc.many) c × Begun text.now t b c }
    ensures { Shaped text.now table.now names.old slots.old sc c names.new
        slots.new result }
{
    let behind = read(c, t.end, 0, 0);
    match b {
        Begin::Let => let_in(text, table, names, slots, sc, behind),
        Begin::Case => case_of(text, table, names, slots, sc, behind),
        Begin::Each => each_of(text, table, names, slots, sc, behind),
        Begin::Pair => pair(text, table, names, slots, sc, behind),
        Begin::List => list(text, table, names, slots, sc, behind),
        Begin::Number => amount(text, table, names, slots, sc, t, c),
        Begin::False => bare(slots, behind, 0x11),
        Begin::True => bare(slots, behind, 0x12),
        Begin::Hash => var(text, names, slots, sc, c),
        Begin::Name => name(text, table, names, slots, sc, t, c),
    }
}

// A pair, behind its bracket.
#[cycle(expr)]
fn pair(
    text: &[u8],
    table: &[usize],
    names: &mut [usize],
    slots: &mut [u8],
    sc: Scope,
    c: Cursor,
) -> Cursor
    requires { Inner (length table.now) (length names.old) (length slots.old) (sc.base + sc.many) c }
    ensures { Pair text.now table.now names.old slots.old sc c names.new slots.new result }
{
    let a = expr(text, table, names, slots, sc, enter(c));
    let comma = symbol(text, a, Kind::Mark(b','), 9);
    let b = expr(text, table, names, slots, sc, comma);
    let end = symbol(text, b, Kind::Mark(b')'), 10);
    let first = (c.count + 1) as u8;
    let second = comma.count as u8;
    store(slots, c.count, [0x16, first, second, 0, 0, 0, 0, 0]);
    end
}

// A list, behind its bracket.
#[cycle(expr)]
fn list(
    text: &[u8],
    table: &[usize],
    names: &mut [usize],
    slots: &mut [u8],
    sc: Scope,
    c: Cursor,
) -> Cursor
    requires { Inner (length table.now) (length names.old) (length slots.old) (sc.base + sc.many) c }
    ensures { Listed text.now table.now names.old slots.old sc c names.new
        slots.new result }
{
    let t = next(text, c.at);
    if t.is(Kind::Mark(b']')) {
        return bare(slots, read(c, t.end, 0, 0), 0x13);
    }
    front(text, table, names, slots, sc, c)
}

// A member in front of a list, behind the bracket or the comma.
#[cycle(expr)]
fn front(
    text: &[u8],
    table: &[usize],
    names: &mut [usize],
    slots: &mut [u8],
    sc: Scope,
    c: Cursor,
) -> Cursor
    requires { Inner (length table.now) (length names.old) (length slots.old) (sc.base + sc.many) c }
    ensures { Front text.now table.now names.old slots.old sc c names.new slots.new result }
{
    let a = expr(text, table, names, slots, sc, enter(c));
    let b = back(text, table, names, slots, sc, a);
    let first = (c.count + 1) as u8;
    let second = a.count as u8;
    store(slots, c.count, [0x15, first, second, 0, 0, 0, 0, 0]);
    b
}

// The rest of a list, behind a member.
#[cycle(expr)]
fn back(
    text: &[u8],
    table: &[usize],
    names: &mut [usize],
    slots: &mut [u8],
    sc: Scope,
    c: Cursor,
) -> Cursor
    requires { Ready (length table.now) (length names.old) (length slots.old) (sc.base + sc.many) c }
    ensures { Back text.now table.now names.old slots.old sc c names.new slots.new result }
{
    if c.code != 0 {
        return c;
    }
    let t = next(text, c.at);
    if t.is(Kind::Mark(b'|')) {
        let b = expr(text, table, names, slots, sc, read(c, t.end, 0, 0));
        return symbol(text, b, Kind::Mark(b']'), 14);
    }
    if t.is(Kind::Mark(b',')) {
        if c.count == 200 {
            return fault(c, 94, t.at, 72);
        }
        return front(text, table, names, slots, sc, read(c, t.end, 0, 0));
    }
    if !t.is(Kind::Mark(b']')) {
        return fault(c, 90, t.at, 13);
    }
    if c.count == 200 {
        return fault(c, 94, t.at, 72);
    }
    bare(slots, read(c, t.end, 0, 0), 0x13)
}

// The scope, and two names more.
fn wider(sc: Scope) -> Scope
    requires { sc.many ≤ 414 }
    ensures { result ≡ with_two sc }
{
    Scope {
        base: sc.base,
        many: sc.many + 2,
        lost: sc.lost,
    }
}

// `let`, behind the word.
#[cycle(expr)]
fn let_in(
    text: &[u8],
    table: &[usize],
    names: &mut [usize],
    slots: &mut [u8],
    sc: Scope,
    c: Cursor,
) -> Cursor
    requires { Inner (length table.now) (length names.old) (length slots.old) (sc.base + sc.many) c }
    ensures { Let text.now table.now names.old slots.old sc c names.new slots.new result }
{
    let top = sc.base + sc.many;
    let open = symbol(text, enter(c), Kind::Mark(b'('), 8);
    let bound = two(text, names, sc, open, Kind::Mark(b','), 9);
    let x = names[top];
    let y = names[top + 1];
    let close = symbol(text, bound, Kind::Mark(b')'), 10);
    let equals = symbol(text, close, Kind::Mark(b'='), 4);
    let a = expr(text, table, names, slots, sc, equals);
    let within = keyword(text, a, b"in", 15);
    names[top] = x;
    names[top + 1] = y;
    let b = expr(text, table, names, slots, wider(sc), within);
    let first = (c.count + 1) as u8;
    let second = within.count as u8;
    store(slots, c.count, [0x19, first, second, 0, 0, 0, 0, 0]);
    b
}

// A number, or an amount and what it is added to; t is its token.
#[cycle(expr)]
fn amount(
    text: &[u8],
    table: &[usize],
    names: &mut [usize],
    slots: &mut [u8],
    sc: Scope,
    t: Lexeme,
    c: Cursor,
) -> Cursor
    requires { Inner (length table.now) (length names.old) (length slots.old) (sc.base + sc.many) c × Begun text.now t Number c }
    ensures { Shaped text.now table.now names.old slots.old sc c names.new
        slots.new result }
{
    let v = number(text, t.at, t.end, MOST, 60, c);
    if v.code != 0 {
        return v;
    }
    let plus = next(text, t.end);
    if !plus.is(Kind::Mark(b'+')) {
        return constant(slots, v);
    }
    if 65535 < v.found {
        return fault(c, 93, plus.at, 63);
    }
    let inner = enter(read(c, plus.end, 0, 0));
    let a = expr(text, table, names, slots, sc, inner);
    let first = (c.count + 1) as u8;
    let high = (v.found / 256) as u8;
    let low = (v.found % 256) as u8;
    store(slots, c.count, [0x1B, first, high, low, 0, 0, 0, 0]);
    a
}

// A name, of a variable or of a section that is called: t is its token.
fn name(
    text: &[u8],
    table: &[usize],
    names: &mut [usize],
    slots: &mut [u8],
    sc: Scope,
    t: Lexeme,
    c: Cursor,
) -> Cursor
    requires { Inner (length table.now) (length names.old) (length slots.old) (sc.base + sc.many) c × Begun text.now t Name c }
    ensures { Shaped text.now table.now names.old slots.old sc c names.new
        slots.new result }
{
    let u = next(text, t.end);
    if !u.is(Kind::Mark(b'(')) {
        return var(text, names, slots, sc, c);
    }
    call(text, table, names, slots, sc, t, read(c, u.end, 0, 0))
}

// `each`, behind the word.
#[cycle(expr)]
fn each_of(
    text: &[u8],
    table: &[usize],
    names: &mut [usize],
    slots: &mut [u8],
    sc: Scope,
    c: Cursor,
) -> Cursor
    requires { Inner (length table.now) (length names.old) (length slots.old) (sc.base + sc.many) c }
    ensures { Each text.now table.now names.old slots.old sc c names.new slots.new result }
{
    let called = callee(text, table, enter(c));
    let open = symbol(text, called, Kind::Mark(b'('), 8);
    let a = expr(text, table, names, slots, sc, open);
    let comma = symbol(text, a, Kind::Mark(b','), 9);
    let x = variable(text, names, sc, comma);
    let close = symbol(text, x, Kind::Mark(b')'), 10);
    let word = keyword(text, close, b"default", 25);
    let none = Scope {
        base: sc.base + sc.many,
        many: 0,
        lost: 42,
    };
    let d = expr(text, table, names, slots, none, word);
    let first = (c.count + 1) as u8;
    let section = (called.found % 256) as u8;
    let beside = (x.found % 256) as u8;
    let second = word.count as u8;
    store(
        slots,
        c.count,
        [0x1C, first, section, beside, second, 0, 0, 0],
    );
    d
}

// `case`, behind the word.
#[cycle(expr)]
fn case_of(
    text: &[u8],
    table: &[usize],
    names: &mut [usize],
    slots: &mut [u8],
    sc: Scope,
    c: Cursor,
) -> Cursor
    requires { Inner (length table.now) (length names.old) (length slots.old) (sc.base + sc.many) c }
    ensures { Case text.now table.now names.old slots.old sc c names.new slots.new result }
{
    let s = expr(text, table, names, slots, sc, enter(c));
    let of = keyword(text, s, b"of", 16);
    branches(text, table, names, slots, sc, c.count, of)
}

// The branches of a case, behind `of`; n is the case's number, and its subject's nodes stand behind it.
#[cycle(expr)]
fn branches(
    text: &[u8],
    table: &[usize],
    names: &mut [usize],
    slots: &mut [u8],
    sc: Scope,
    n: usize,
    c: Cursor,
) -> Cursor
    requires { Cased (length table.now) (length names.old) (length slots.old) (sc.base + sc.many) n c }
    ensures { Branches text.now table.now n names.old slots.old sc c names.new
        slots.new result }
{
    if c.code != 0 {
        return c;
    }
    let t = next(text, c.at);
    if is_word(text, t, b"false") {
        return truth_case(text, table, names, slots, sc, n, read(c, t.end, 0, 0));
    }
    if !t.is(Kind::Mark(b'[')) {
        return fault(c, 90, t.at, 17);
    }
    list_case(text, table, names, slots, sc, n, read(c, t.end, 0, 0))
}

// An arrow and the expression of a branch.
#[cycle(expr)]
fn branch(
    text: &[u8],
    table: &[usize],
    names: &mut [usize],
    slots: &mut [u8],
    sc: Scope,
    c: Cursor,
) -> Cursor
    requires { Ready (length table.now) (length names.old) (length slots.old) (sc.base + sc.many) c }
    ensures { Branch text.now table.now names.old slots.old sc c names.new
        slots.new result }
{
    let arrow = symbol(text, c, Kind::Arrow, 19);
    expr(text, table, names, slots, sc, arrow)
}

// `=` and a default of a case, which sees `sent` alone.
#[cycle(expr)]
fn default(
    text: &[u8],
    table: &[usize],
    names: &mut [usize],
    slots: &mut [u8],
    top: usize,
    c: Cursor,
) -> Cursor
    requires { Ready (length table.now) (length names.old) (length slots.old) (top + 1) c }
    ensures { Default text.now table.now names.old slots.old top c names.new
        slots.new result }
{
    let equals = symbol(text, c, Kind::Mark(b'='), 4);
    names[top] = text.len();
    let sent = Scope {
        base: top,
        many: 1,
        lost: 41,
    };
    expr(text, table, names, slots, sent, equals)
}

// The branches for false and true, behind `false`.
#[cycle(expr)]
fn truth_case(
    text: &[u8],
    table: &[usize],
    names: &mut [usize],
    slots: &mut [u8],
    sc: Scope,
    n: usize,
    c: Cursor,
) -> Cursor
    requires { Cased (length table.now) (length names.old) (length slots.old) (sc.base + sc.many) n c × (c.code ≡ 0) }
    ensures { Truth text.now table.now n names.old slots.old sc c names.new
        slots.new result }
{
    let a = branch(text, table, names, slots, sc, c);
    let t = test(text, a, 28, 29);
    let word = keyword(text, t, b"true", t.detail);
    let b = branch(text, table, names, slots, sc, word);
    let u = test(text, b, 30, 31);
    let end = keyword(text, u, b"end", u.detail);
    let subject = (n + 1) as u8;
    let first = c.count as u8;
    let second = word.count as u8;
    let test_a = (t.found % 256) as u8;
    let test_b = (u.found % 256) as u8;
    store(
        slots,
        n,
        [0x18, subject, first, test_a, second, test_b, 0, 0],
    );
    end
}

// The branches for the empty list and any other, behind `[`.
#[cycle(expr)]
fn list_case(
    text: &[u8],
    table: &[usize],
    names: &mut [usize],
    slots: &mut [u8],
    sc: Scope,
    n: usize,
    c: Cursor,
) -> Cursor
    requires { Cased (length table.now) (length names.old) (length slots.old) (sc.base + sc.many) n c × (c.code ≡ 0) }
    ensures { Lists text.now table.now n names.old slots.old sc c names.new
        slots.new result }
{
    let top = sc.base + sc.many;
    let none = symbol(text, c, Kind::Mark(b']'), 18);
    let a = branch(text, table, names, slots, sc, none);
    let t = test(text, a, 20, 21);
    let open = symbol(text, t, Kind::Mark(b'['), t.detail);
    let bound = two(text, names, sc, open, Kind::Mark(b'|'), 22);
    let x = names[top];
    let y = names[top + 1];
    let close = symbol(text, bound, Kind::Mark(b']'), 14);
    let b = branch(text, table, names, slots, wider(sc), close);
    let u = test(text, b, 24, 25);
    let word = keyword(text, u, b"default", u.detail);
    let member = again(text, word, x, 26);
    let d = default(text, table, names, slots, top, member);
    let comma = symbol(text, d, Kind::Mark(b','), 9);
    let rest = again(text, comma, y, 27);
    let e = default(text, table, names, slots, top, rest);
    let end = keyword(text, e, b"end", 31);
    let subject = (n + 1) as u8;
    let first = c.count as u8;
    let second = close.count as u8;
    let test_a = (t.found % 256) as u8;
    let test_b = (u.found % 256) as u8;
    let one = member.count as u8;
    let others = rest.count as u8;
    store(
        slots,
        n,
        [0x17, subject, first, test_a, second, test_b, one, others],
    );
    end
}
