//! A whole text: the plan's names, the list's expression and the sections; read once for the names of the sections, and once more with them.
ghost use Rattle.std.specs.Prelude.{◌≡◌, ◌+◌, ◌*◌, ◌≤◌, ◌<◌, length};
ghost use Rattle.report.specs.Writing.{Wrote};
ghost use Rattle.parsing.specs.Answer.{answer_of, reply_of, output_of};
ghost use Rattle.parsing.specs.declared.Reading.TheVariants.{At};
ghost use Rattle.syntax.specs.Reader.{sheet_of};
ghost use Rattle.parsing.specs.Nodes.{records_from, records_in, record_in};
ghost use Rattle.parsing.specs.Whole.{Full, Planned, Titled, Lent, Sectioned, Sections, Passed};

use crate::Reading;
use crate::cursor::{Cursor, fault, read as behind};
use crate::expect::{Scope, bind, keyword, symbol};
use crate::expr::{expr, two};
use crate::names::{is_name, is_word, lookup};
use lexing::{Kind, next};

// A 17th name of the plan, or none.
fn full(text: &[u8], c: Cursor) -> Cursor
    requires { c.code ≡ 0 }
    ensures { Full text.now c result }
{
    let t = next(text, c.at);
    if is_word(text, t, b"_") {
        return fault(c, 94, t.at, 70);
    }
    if is_name(text, t) {
        return fault(c, 94, t.at, 70);
    }
    fault(c, 90, t.at, 2)
}

// The names of the plan's values, of which there are i so far.
fn plan(text: &[u8], names: &mut [usize], i: usize, c: Cursor) -> Cursor
    requires { (i ≤ 16) × (length names.old ≡ 416) }
    ensures { Planned text.now names.old i c names.new result }
{
    if c.code != 0 {
        return c;
    }
    if i == 16 {
        return full(text, c);
    }
    let known = Scope {
        base: 0,
        many: i,
        lost: 40,
    };
    let b = bind(text, names, known, c);
    if b.code != 0 {
        return b;
    }
    let t = next(text, b.at);
    if !t.is(Kind::Mark(b',')) {
        return behind(b, b.at, i + 1, 0);
    }
    plan(text, names, i + 1, behind(b, t.end, 0, 0))
}

// The name of a section that is none of the i so far; it is noted behind them.
fn title(text: &[u8], fresh: &mut [usize], i: usize, c: Cursor) -> Cursor
    requires { (i < 8) × (length fresh.old ≡ 9) }
    ensures { Titled text.now fresh.old i c fresh.new result }
{
    if c.code != 0 {
        return c;
    }
    let t = next(text, c.at);
    if !is_name(text, t) {
        return fault(c, 90, t.at, 7);
    }
    if lookup(text, fresh, 1, i, t).is_some() {
        return fault(c, 92, t.at, 51);
    }
    fresh[1 + i] = t.at;
    behind(c, t.end, 0, 0)
}

// A section, behind the word, of which there are i before it.
fn section(
    text: &[u8],
    table: &[usize],
    names: &mut [usize],
    slots: &mut [u8],
    fresh: &mut [usize],
    i: usize,
    c: Cursor,
) -> Cursor
    requires { (i < 8) × (length fresh.old ≡ 9) × Lent (length table.now) (length names.old) (length slots.old) c }
    ensures { Sectioned text.now table.now names.old slots.old fresh.old i c
        names.new slots.new fresh.new result }
{
    let named = title(text, fresh, i, c);
    let open = symbol(text, named, Kind::Mark(b'('), 8);
    let none = Scope {
        base: 0,
        many: 0,
        lost: 40,
    };
    let bound = two(text, names, none, open, Kind::Mark(b','), 9);
    let close = symbol(text, bound, Kind::Mark(b')'), 10);
    let equals = symbol(text, close, Kind::Mark(b'='), 4);
    let both = Scope {
        base: 0,
        many: 2,
        lost: 40,
    };
    expr(text, table, names, slots, both, equals)
}

// The sections, of which there are i so far; what is found is how many there are.
fn sections(
    text: &[u8],
    table: &[usize],
    names: &mut [usize],
    slots: &mut [u8],
    front: &mut [u8],
    fresh: &mut [usize],
    i: usize,
    c: Cursor,
) -> Cursor
    requires { (i ≤ 8) × (length fresh.old ≡ 9) × (length front.old ≡ 19) × Lent (length table.now) (length names.old) (length slots.old) c }
    ensures sections { Sections text.now table.now slots.old front.old fresh.old i c slots.new
        front.new fresh.new result }
    ensures names_len_unchanged { length names.new ≡ length names.old }
{
    if c.code != 0 {
        return c;
    }
    let t = next(text, c.at);
    if t.is(Kind::End) {
        return behind(c, c.at, i, 0);
    }
    if !is_word(text, t, b"section") {
        return fault(c, 90, t.at, 6);
    }
    if i == 8 {
        return fault(c, 94, t.at, 71);
    }
    front[3 + 2 * i] = 0x20;
    front[4 + 2 * i] = c.count as u8;
    let s = section(text, table, names, slots, fresh, i, behind(c, t.end, 0, 0));
    sections(text, table, names, slots, front, fresh, i + 1, s)
}

// A whole text: its nodes, its front (the first three bytes of the sheet and its sections' records), and the names of its sections.
fn pass(
    text: &[u8],
    table: &[usize],
    names: &mut [usize],
    slots: &mut [u8],
    front: &mut [u8],
    fresh: &mut [usize],
) -> Cursor
    requires { (length table.now ≤ 9) × (length names.old ≡ 416) × (length slots.old ≡ 1600) × (length front.old ≡ 19) × (length fresh.old ≡ 9) }
    ensures passed { Passed text.now table.now slots.new front.new fresh.new result }
    ensures names_len { (length names.new ≡ 416) × (length slots.new ≡ 1600) × (length front.new ≡ 19) ×
        (length fresh.new ≡ 9) }
{
    let start = Cursor {
        at: 0,
        count: 0,
        found: 0,
        code: 0,
        detail: 0,
    };
    let opened = keyword(text, start, b"plan", 1);
    let k = plan(text, names, 0, opened);
    if k.code != 0 {
        return k;
    }
    front[0] = 0x01;
    front[1] = k.found as u8;
    front[2] = 0;
    let list = keyword(text, k, b"list", 3);
    let equals = symbol(text, list, Kind::Mark(b'='), 4);
    let known = Scope {
        base: 0,
        many: k.found,
        lost: 40,
    };
    let a = expr(text, table, names, slots, known, equals);
    sections(text, table, names, slots, front, fresh, 0, a)
}

// The record of node n.
fn record(slots: &[u8], n: usize, out: &mut [u8], at: usize) -> usize
    requires { 8 * n + 8 ≤ length slots.now }
    ensures { Wrote (record_in slots.now n) at out.old out.new result }
{
    let width = node::record_width(slots[8 * n]);
    report::bytes(out, at, &slots[8 * n..8 * n + width])
}

// The records of so many nodes.
fn records(slots: &[u8], count: usize, out: &mut [u8], at: usize) -> usize
    requires { (count ≤ 200) × (length slots.now ≡ 1600) }
    ensures { Wrote (records_from slots.now 0 count) at out.old out.new result }
{
    let mut end = report::place(out, at);
    for n in 0..count {
        end = record(slots, n, out, end);
    }
    end
}

// The sheet: its front, and the records of its nodes.
fn write(front: &[u8], slots: &[u8], count: usize, out: &mut [u8]) -> usize
    requires { (count ≤ 200) × (length slots.now ≡ 1600) }
    ensures { Wrote (records_in slots.now front.now count) 0 out.old out.new result }
{
    let end = report::bytes(out, 0, front);
    records(slots, count, out, end)
}

// The refusal that a fault is.
fn met(c: Cursor) -> Reading
    ensures { result ≡ At c.code c.at c.detail }
{
    Reading::At {
        refusal: c.code,
        place: c.at,
        detail: c.detail,
    }
}

/// The sheet that a text says.
pub fn read(text: &[u8], out: &mut [u8]) -> Reading
    requires { 2048 ≤ length out.old }
    ensures value { result ≡ reply_of (answer_of (sheet_of text.now)) }
    ensures out_after { out.new ≡ output_of (answer_of (sheet_of text.now)) out.old }
{
    let mut names = [0usize; 416];
    let mut slots = [0u8; 1600];
    let mut front = [0u8; 19];
    let mut titles = [0usize; 9];
    let none = [0usize; 1];
    let first = pass(
        text,
        &none[..0],
        &mut names,
        &mut slots,
        &mut front,
        &mut titles,
    );
    if first.code != 0 {
        return met(first);
    }
    let mut again = [0usize; 9];
    let second = pass(
        text,
        &titles[..first.found + 1],
        &mut names,
        &mut slots,
        &mut front,
        &mut again,
    );
    if second.code != 0 {
        return met(second);
    }
    Reading::Done(write(&front[..3 + 2 * second.found], &slots, second.count, out))
}
