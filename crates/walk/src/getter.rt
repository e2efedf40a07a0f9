//! Get: the value of a node. It stands in the plan, or on the stack from the top on, or below the top where it was already. A node's record
//! starts at byte `place` of the sheet; lent are the sheet, the `table` of where its records start, and the arena.
ghost use Rattle.std.specs.Prelude.{◌≡◌, ◌+◌, ◌*◌, ◌≤◌, ◌<◌, length, get_or};
ghost use Rattle.std.proofs.Math.Seq.{paste};
ghost use Rattle.outcome.specs.Outcome.{done_as};
ghost use Rattle.node.specs.Wide.{wide_bytes};
ghost use Rattle.rules.specs.Numbers.{scratch_size};
ghost use Rattle.walk.specs.Get.{Ready, GetShows, KindAsked, KindTells, enter};
ghost use Rattle.walk.specs.Get.Requires.{Sized};
ghost use Rattle.walk.specs.Get.Two.{Two};
ghost use Rattle.walk.specs.Get.Case.{Case, test_of};
ghost use Rattle.walk.specs.Get.Leaf.{Childless, numbered};
ghost use Rattle.walk.specs.Get.Members.{MembersAsked, MembersTold};

use crate::at::{At, Pos, Table};
use crate::got::{added, bring, first_bytes, joined, judge, shape_at};
use crate::scope::with_two;
use arena::leave;
use decisions::Branch;
use outcome::Answer;
use refusal::Refusal;
use scopes::Scope;

// The number of a constant (14). Beside `get_wide`: the bytes go straight into the arena, where one function of both would copy them twice.
fn get_number(sheet: &[u8], arena: &mut [u8], place: u16, top: usize) -> Answer
    requires { (top + 3 ≤ length arena.old) × (top < scratch_size) }
    ensures { (arena.new ≡ numbered arena.old top
        (256 * get_or sheet.now (place + 1) 0 + get_or sheet.now (place + 2) 0)) × (result ≡ done_as top 3 0) }
{
    arena[top] = 4;
    arena[top + 1] = node::byte_of(sheet, place, 1);
    arena[top + 2] = node::byte_of(sheet, place, 2);
    Answer::done(top, 3, 0)
}

// The number of a constant of four bytes (1D).
fn get_wide(sheet: &[u8], arena: &mut [u8], place: u16, top: usize) -> Answer
    requires { (top + 5 ≤ length arena.old) × (top < scratch_size) }
    ensures { (arena.new ≡ paste arena.old top (wide_bytes sheet.now place) 5) × (result ≡ done_as top 5 0) }
{
    let number = node::wide_bytes(sheet, place);
    scopes::store(arena, top, &number);
    Answer::done(top, 5, 0)
}

// A variable (10), False, True or the empty list (11 to 13), which are one byte each, or a number (14).
fn get_leaf(sheet: &[u8], table: &Table, arena: &mut [u8], scope: Scope, own: Pos, at: At) -> Answer
    requires kind_asked { KindAsked sheet.now table.now arena.old scope own at }
    requires childless { Childless own.kind }
    ensures { KindTells sheet.now arena.old arena.new scope own at result }
{
    let kind = own.kind;
    let top = at.top;
    if kind == 0x10 {
        return scopes::variable(scope, node::number_of(sheet, own.from, 1));
    }
    if kind == 0x14 {
        return get_number(sheet, arena, own.from, top);
    }
    arena[top] = kind - 0x11;
    Answer::done(top, 1, 0)
}

/// The value of a node: its depth is judged, then the allowance. The sheet's reader lets no kind over 1D through.
// The kind is told by its byte (document 01, "What form each place needs"), by `if`s: one `match` with ranges was tried and took longer.
#[cycle(get)]
pub fn get_node(
    sheet: &[u8],
    table: &Table,
    arena: &mut [u8],
    scope: Scope,
    node: usize,
    at: At,
) -> Answer
    requires { Ready sheet.now table.now arena.old scope at.top at.levels at.left (enter node) }
    ensures get_shows { GetShows arena.old arena.new sheet.now scope at.top at.top at.left result at.levels (enter node) }
    ensures sized { Sized at.top at.left at.levels result }
{
    if let Err(refusal) = decisions::entry(at.levels, at.left) {
        return leave(arena, Answer::refused(refusal), node, at.levels);
    }
    let from = table[node];
    let below = at.below();
    let kind = node::byte_of(sheet, from, 0);
    let own = Pos { node, from, kind };
    if kind < 0x15 {
        let got = get_leaf(sheet, table, arena, scope, own, below);
        return leave(arena, got, node, at.levels);
    }
    if kind < 0x1A {
        if kind < 0x17 {
            let got = get_two(sheet, table, arena, scope, own, below);
            return leave(arena, got, node, at.levels);
        }
        let got = get_case(sheet, table, arena, scope, own, below);
        return leave(arena, got, node, at.levels);
    }
    if kind < 0x1C {
        if kind == 0x1A {
            let got = get_call(sheet, table, arena, scope, own, below);
            return leave(arena, got, node, at.levels);
        }
        let got = get_add(sheet, table, arena, scope, own, below);
        return leave(arena, got, node, at.levels);
    }
    if kind == 0x1C {
        let got = get_each(sheet, table, arena, scope, own, below);
        return leave(arena, got, node, at.levels);
    }
    // 1D: no other kind is left
    let top = below.top;
    let got = get_wide(sheet, arena, from, top);
    leave(arena, got, node, at.levels)
}

// A front (15) or a pair (16).
#[cycle(get)]
fn get_two(sheet: &[u8], table: &Table, arena: &mut [u8], scope: Scope, own: Pos, at: At) -> Answer
    requires kind_asked { KindAsked sheet.now table.now arena.old scope own at }
    requires two { Two own.kind }
    ensures { KindTells sheet.now arena.old arena.new scope own at result }
{
    let top = at.top;
    let made = decisions::made(own.kind);
    arena[top] = made;
    let one = at.raised(1);
    let first = node::number_of(sheet, own.from, 1);
    let got = get_node(sheet, table, arena, scope, first, one);
    let a = bring(arena, got, one.top);
    if a.is_refused() {
        return a;
    }
    let two = one.behind(a);
    let second = node::number_of(sheet, own.from, 2);
    let got = get_node(sheet, table, arena, scope, second, two);
    let b = bring(arena, got, two.top);
    joined(arena, made, top, a, b)
}

// The test of the branch whose node is byte `i` of a case's record. A split has none: 0 says yes to anything.
fn test_of(sheet: &[u8], place: u16, kind: u8, i: u16) -> u8
    requires { i ≤ 4 }
    ensures { result ≡ test_of kind sheet.now place i }
{
    if kind == 0x19 {
        return 0;
    }
    node::byte_of(sheet, place, i + 1)
}

// A list case (17), a truth case (18) or a split (19): the subject, and then the branch that it fits.
#[cycle(get)]
fn get_case(sheet: &[u8], table: &Table, arena: &mut [u8], scope: Scope, own: Pos, at: At) -> Answer
    requires kind_asked { KindAsked sheet.now table.now arena.old scope own at }
    requires case { Case own.kind }
    ensures { KindTells sheet.now arena.old arena.new scope own at result }
{
    let subject = node::number_of(sheet, own.from, 1);
    let got = get_node(sheet, table, arena, scope, subject, at);
    if got.is_refused() {
        return got;
    }
    let to = at.behind(got);
    let top = at.top;
    match decisions::fits(own.kind, shape_at(arena, got)) {
        Branch::Plain(i, _) => {
            let node = node::number_of(sheet, own.from, i);
            let test = test_of(sheet, own.from, own.kind, i);
            let branch = get_node(sheet, table, arena, scope, node, to);
            judge(arena, branch, test, top).later(got.steps())
        }
        Branch::Parts(i, mid) => {
            let node = node::number_of(sheet, own.from, i);
            let test = test_of(sheet, own.from, own.kind, i);
            let inner = with_two(scope, got.start() + 1, mid - 1, got.len() - mid);
            let branch = get_node(sheet, table, arena, inner, node, to);
            judge(arena, branch, test, top).later(got.steps())
        }
        _ => Answer::refused(Refusal::ValueKind),
    }
}

// A call (1A): the section's root, with the caller's two variables alone.
#[cycle(get)]
fn get_call(sheet: &[u8], table: &Table, arena: &mut [u8], scope: Scope, own: Pos, at: At) -> Answer
    requires kind_asked { KindAsked sheet.now table.now arena.old scope own at }
    requires kind_value { own.kind ≡ 0x1A }
    ensures { KindTells sheet.now arena.old arena.new scope own at result }
{
    let x = node::number_of(sheet, own.from, 2);
    let y = node::number_of(sheet, own.from, 3);
    let count = usize::from(scope.count);
    if count <= x {
        return Answer::refused(Refusal::Scope);
    }
    if count <= y {
        return Answer::refused(Refusal::Scope);
    }
    let root = sheet::section_root(sheet, node::number_of(sheet, own.from, 1));
    let inner = scopes::section(scope, x, y);
    get_node(sheet, table, arena, inner, root, at)
}

// An amount added (1B).
#[cycle(get)]
fn get_add(sheet: &[u8], table: &Table, arena: &mut [u8], scope: Scope, own: Pos, at: At) -> Answer
    requires kind_asked { KindAsked sheet.now table.now arena.old scope own at }
    requires kind_value { own.kind ≡ 0x1B }
    ensures { KindTells sheet.now arena.old arena.new scope own at result }
{
    let top = at.top;
    let node = node::number_of(sheet, own.from, 1);
    let got = get_node(sheet, table, arena, scope, node, at);
    let a = bring(arena, got, top);
    let amount = u16::from_be_bytes([
        node::byte_of(sheet, own.from, 2),
        node::byte_of(sheet, own.from, 3),
    ]);
    added(arena, a, amount, top)
}

// What a section's root gives for each member of the list that stands from `start` to `end`, with the member and the caller's variable x: a
// list, built from the top on, each member behind its 03.
#[cycle(get)]
fn get_members(
    sheet: &[u8],
    table: &Table,
    arena: &mut [u8],
    scope: Scope,
    x: usize,
    root: usize,
    start: usize,
    end: usize,
    at: At,
) -> Answer
    requires { MembersAsked sheet.now table.now arena.old scope at.top at.levels at.left x root start end }
    ensures { MembersTold arena.old arena.new sheet.now scope at.top at.left result at.levels x root start end }
{
    let base = at.top;
    let mut to = at;
    let mut next = start;
    let mut inner = scope;
    inner.count = 2;
    // `while`: where the next member starts is read from this one, and an iterator would read it the same way
    while arena[next] == 3 {
        let mid = first_bytes(arena, next, end);
        inner.starts[0] = (next + 1) as u16;
        inner.starts[1] = scope.starts[x];
        inner.lens[0] = (mid - 2) as u8;
        inner.lens[1] = scope.lens[x];
        let top = to.top;
        arena[top] = 3;
        let one = to.raised(1);
        let got = get_node(sheet, table, arena, inner, root, one);
        let a = bring(arena, got, one.top);
        let front = decisions::fronted(a, top - base, top);
        if front.is_refused() {
            return front;
        }
        to = to.behind(front);
        next += mid;
    }
    let top = to.top;
    arena[top] = 2;
    Answer::done(base, top + 1 - base, at.left - to.left)
}

// Each (1C): the subject, a list, and then the list of what the section gives for its members.
#[cycle(get)]
fn get_each(sheet: &[u8], table: &Table, arena: &mut [u8], scope: Scope, own: Pos, at: At) -> Answer
    requires kind_asked { KindAsked sheet.now table.now arena.old scope own at }
    requires kind_value { own.kind ≡ 0x1C }
    ensures { KindTells sheet.now arena.old arena.new scope own at result }
{
    let subject = node::number_of(sheet, own.from, 1);
    let got = get_node(sheet, table, arena, scope, subject, at);
    if got.is_refused() {
        return got;
    }
    let start = got.start();
    if decisions::unfit(3, arena[start]) {
        return Answer::refused(Refusal::ValueKind);
    }
    let x = node::number_of(sheet, own.from, 3);
    let count = usize::from(scope.count);
    if count <= x {
        return Answer::refused(Refusal::Scope);
    }
    let root = sheet::section_root(sheet, node::number_of(sheet, own.from, 2));
    let end = start + got.len();
    let to = at.behind(got);
    let list = get_members(sheet, table, arena, scope, x, root, start, end, to);
    let list = bring(arena, list, at.top);
    list.later(got.steps())
}
