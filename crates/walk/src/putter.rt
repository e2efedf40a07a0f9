//! Put: a view put back into a node, with what was written in the arena's slots. A node's record starts at byte `place` of the sheet; lent are,
//! beside what a get is lent, the `slots` and the `cells`.
ghost use Rattle.std.specs.Prelude.{◌≡◌, [], ◌∷◌, ◌+◌, ◌*◌, ◌≤◌, length};
ghost use Rattle.value.specs.Value.{Value, vfalse};
ghost use Rattle.rules.specs.Numbers.{chain_start};
ghost use Rattle.outcome.specs.Outcome.{len_of};
ghost use Rattle.decisions.specs.Decisions.{made_of};
ghost use Rattle.walk.specs.Arena.Cells.{Shown};
ghost use Rattle.walk.specs.Get.Two.{Two};
ghost use Rattle.walk.specs.Get.Case.{Case};
ghost use Rattle.walk.specs.Get.Leaf.{Childless};
ghost use Rattle.walk.specs.Put.{
  Ready,
  Inner,
  PutShows,
  Few,
  Any,
  PartsAt,
  SomeParts,
  SomeView,
  TaskAsked,
  TaskTells,
  KindAsked,
  KindTells,
  enter,
  pair,
  inside_of,
  rebuilt_of,
  switch_at,
};
ghost use Rattle.walk.specs.Put.Under.{got_parts};
ghost use Rattle.walk.specs.Put.Switch.{BothAsked, Sees, DefaultsAsked, Defaults};
ghost use Rattle.walk.specs.Put.Member.{StoodAsked, Stood, MembersAsked, MemberTold};
ghost use Rattle.walk.specs.Put.Members.{SomeList, MembersTold};

use crate::at::{At, Pos, Table};
use crate::bytes::{copy, fill, number, rebuild};
use crate::getter::get_node;
use crate::got::{bring, shape_at};
use crate::scope::{member, none, single, with_two};
use arena::{leave, write};
use decisions::{Apart, Branch};
use outcome::Answer;
use refusal::Refusal;
use scopes::Scope;
use shapes::Shape;

/// What is noted of each slot, 0 where nothing was written.
type Slots = [u16; rules::VARIABLES];

/// The cell of each variable.
type Cells = [u8; rules::VARIABLES];

/// A branch that adds no variables: its node, the subject's, and the byte that the subject then is.
#[derive(Clone, Copy, Debug, PartialEq, Eq)]
pub struct Plain {
    pub branch: usize,
    pub subject: usize,
    pub byte: u8,
}

/// A branch that adds two variables: its node and the subject's, the byte that the subject begins with, 3 for a list and 5 for a pair; and its two
/// parts, which stand one after the other: where the first starts, and how long each is.
#[derive(Clone, Copy, Debug, PartialEq, Eq)]
pub struct Parts {
    pub kind: u8,
    pub branch: usize,
    pub subject: usize,
    pub start: usize,
    pub first: usize,
    pub second: usize,
}

/// What each (1C) goes by from member to member: the subject's node, the caller's variable, the section's root, the default's node, and where
/// the old members that are left stand, as a list.
#[derive(Clone, Copy, Debug, PartialEq, Eq)]
pub struct Members {
    pub subject: usize,
    pub x: usize,
    pub root: usize,
    pub default: usize,
    pub old: usize,
}

/// The next member of an each: by what it goes, how many bytes of the new list are built, and where the walk is.
#[derive(Clone, Copy, Debug, PartialEq, Eq)]
pub struct Turn {
    pub by: Members,
    pub built: usize,
    pub at: At,
}

// The parts of a subject that was got, the second `mid` bytes behind its start, for a branch of a node of that kind.
fn parts_of(kind: u8, branch: usize, subject: usize, got: Answer, mid: usize) -> Parts
    requires { (1 ≤ mid) × (mid ≤ len_of got) }
    ensures { result ≡ got_parts (made_of kind) branch subject got mid }
{
    Parts {
        kind: decisions::made(kind),
        branch,
        subject,
        start: got.start() + 1,
        first: mid - 1,
        second: got.len() - mid,
    }
}

// A constant (11 to 14) must equal the view; a variable (10) takes it.
fn put_leaf(
    sheet: &[u8],
    table: &Table,
    arena: &mut [u8],
    slots: &mut Slots,
    scope: Scope,
    cells: &Cells,
    own: Pos,
    view: &[u8],
    at: At,
) -> Answer
    requires kind_asked { KindAsked sheet.now table.now arena.old slots.old scope cells.now own view.now at }
    requires childless { Childless own.kind }
    ensures { KindTells sheet.now arena.old arena.new slots.old slots.new scope cells.now
        own view.now at result }
{
    let kind = own.kind;
    if kind == 0x14 {
        let constant = [
            4,
            node::byte_of(sheet, own.from, 1),
            node::byte_of(sheet, own.from, 2),
        ];
        return decisions::put_bytes(&constant, view);
    }
    if kind != 0x10 {
        return decisions::put_bytes(&[kind - 0x11], view);
    }
    let x = node::number_of(sheet, own.from, 1);
    let count = usize::from(scope.count);
    if count <= x {
        return Answer::refused(Refusal::Scope);
    }
    let c = usize::from(cells[x]);
    write(arena, slots, c, own.node, view)
}

/// A view put back into a node: its depth is judged, then the allowance. The sheet's reader lets no kind over 1D through.
// The kind is told by its byte, by `if`s, as in `get_node`.
#[cycle(put)]
pub fn put_node(
    sheet: &[u8],
    table: &Table,
    arena: &mut [u8],
    slots: &mut Slots,
    scope: Scope,
    cells: &Cells,
    node: usize,
    view: &[u8],
    at: At,
) -> Answer
    requires { TaskAsked sheet.now table.now arena.old slots.old scope cells.now view.now at (enter node) }
    ensures task_tells { TaskTells sheet.now arena.old arena.new slots.old slots.new scope cells.now
        view.now at result (enter node) }
    ensures few { Few at.left result }
{
    if let Err(refusal) = decisions::entry(at.levels, at.left) {
        return leave(arena, Answer::refused(refusal), node, at.levels);
    }
    let from = table[node];
    let to = at.below();
    let kind = node::byte_of(sheet, from, 0);
    let own = Pos { node, from, kind };
    if kind < 0x15 {
        let put = put_leaf(sheet, table, arena, slots, scope, cells, own, view, to);
        return leave(arena, put, node, at.levels);
    }
    if kind < 0x1A {
        if kind < 0x17 {
            let put = put_two(sheet, table, arena, slots, scope, cells, own, view, to);
            return leave(arena, put, node, at.levels);
        }
        let put = put_case(sheet, table, arena, slots, scope, cells, own, view, to);
        return leave(arena, put, node, at.levels);
    }
    if kind < 0x1C {
        if kind == 0x1A {
            let put = put_call(sheet, table, arena, slots, scope, cells, own, view, to);
            return leave(arena, put, node, at.levels);
        }
        let put = put_add(sheet, table, arena, slots, scope, cells, own, view, to);
        return leave(arena, put, node, at.levels);
    }
    if kind == 0x1C {
        let put = put_each(sheet, table, arena, slots, scope, cells, own, view, to);
        return leave(arena, put, node, at.levels);
    }
    // 1D: no other kind is left
    let constant = node::wide_bytes(sheet, from);
    let put = decisions::put_bytes(&constant, view);
    leave(arena, put, node, at.levels)
}

// The view into a branch that adds no variables, then the byte that the subject is into its node.
#[cycle(put)]
fn put_both(
    sheet: &[u8],
    table: &Table,
    arena: &mut [u8],
    slots: &mut Slots,
    scope: Scope,
    cells: &Cells,
    by: Plain,
    view: &[u8],
    at: At,
) -> Answer
    requires task_asked { TaskAsked sheet.now table.now arena.old slots.old scope cells.now view.now at (pair by.branch by.subject vfalse) }
    requires some_view { SomeView (by.byte ∷ []) }
    ensures { (u : Value) → Shown (by.byte ∷ []) u → TaskTells sheet.now arena.old arena.new slots.old
        slots.new scope cells.now view.now at result (pair by.branch by.subject u) }
{
    let a = by.branch;
    let one = put_node(sheet, table, arena, slots, scope, cells, a, view, at);
    if one.is_refused() {
        return one;
    }
    let then = at.after(one);
    let whole = [by.byte];
    let b = by.subject;
    let two = put_node(sheet, table, arena, slots, scope, cells, b, &whole, then);
    two.later(one.steps())
}

// A front (15) or a pair (16): the view is taken apart, left first.
#[cycle(put)]
fn put_two(
    sheet: &[u8],
    table: &Table,
    arena: &mut [u8],
    slots: &mut Slots,
    scope: Scope,
    cells: &Cells,
    own: Pos,
    view: &[u8],
    at: At,
) -> Answer
    requires kind_asked { KindAsked sheet.now table.now arena.old slots.old scope cells.now own view.now at }
    requires two { Two own.kind }
    ensures { KindTells sheet.now arena.old arena.new slots.old slots.new scope cells.now
        own view.now at result }
{
    let Apart::At(mid) = decisions::take_apart(own.kind, shapes::shape_of(view)) else {
        return Answer::refused(Refusal::ViewKind);
    };
    let left = shapes::first_part(view, mid);
    let right = shapes::second_part(view, mid);
    let a = node::number_of(sheet, own.from, 1);
    let one = put_node(sheet, table, arena, slots, scope, cells, a, left, at);
    if one.is_refused() {
        return one;
    }
    let then = at.after(one);
    let b = node::number_of(sheet, own.from, 2);
    let two = put_node(sheet, table, arena, slots, scope, cells, b, right, then);
    two.later(one.steps())
}

// The view into a branch with two variables more, each in a new cell; then the subject, rebuilt of what they now stand for, into its node.
#[cycle(put)]
fn put_under(
    sheet: &[u8],
    table: &Table,
    arena: &mut [u8],
    slots: &mut Slots,
    scope: Scope,
    cells: &Cells,
    parts: Parts,
    view: &[u8],
    at: At,
) -> Answer
    requires task_asked { TaskAsked sheet.now table.now arena.old slots.old scope cells.now view.now at (inside_of parts vfalse vfalse) }
    requires inner { Inner scope at.cells at.levels }
    requires some_parts { SomeParts arena.old at.top parts.start parts.first parts.second }
    ensures { (f u : Value) → PartsAt arena.old at.top parts.start parts.first parts.second f u
        → TaskTells sheet.now arena.old arena.new slots.old slots.new scope cells.now
        view.now at result (inside_of parts f u) }
{
    let c = at.cells;
    slots[c] = 0;
    slots[c + 1] = 0;
    let inner = with_two(scope, parts.start, parts.first, parts.second);
    let mut more = *cells;
    scopes::add_cells(&mut more, usize::from(scope.count), c);
    let to = at.with_cells(2);
    let branch = parts.branch;
    let one = put_node(sheet, table, arena, slots, inner, &more, branch, view, to);
    if one.is_refused() {
        return one;
    }
    let then = at.after(one);
    let two = put_rebuilt(sheet, table, arena, slots, scope, cells, parts, then);
    two.later(one.steps())
}

// The subject, rebuilt of what the two variables of its branch stand for, into its node. Their cells are the next two.
#[cycle(put)]
fn put_rebuilt(
    sheet: &[u8],
    table: &Table,
    arena: &mut [u8],
    slots: &mut Slots,
    scope: Scope,
    cells: &Cells,
    parts: Parts,
    at: At,
) -> Answer
    requires ready { Ready sheet.now table.now arena.old slots.old Any scope cells.now at.cells (at.cells + 2) at.top at.levels at.left
        (rebuilt_of parts vfalse vfalse) }
    requires some_parts { SomeParts arena.old at.top parts.start parts.first parts.second }
    ensures put_shows { (f u : Value) → PartsAt arena.old at.top parts.start parts.first parts.second f u → PutShows arena.old
        arena.new slots.old slots.new sheet.now Any scope cells.now at.cells (at.cells + 2)
        at.top at.left result at.levels (rebuilt_of parts f u) }
    ensures few { Few at.left result }
{
    let c = at.cells;
    let start = parts.start;
    let first = parts.first;
    let f = scopes::place_of(slots[c], c, start, first);
    let r = scopes::place_of(slots[c + 1], c + 1, start + first, parts.second);
    let rest = r.start;
    if decisions::unfit(parts.kind, arena[rest]) {
        return Answer::refused(Refusal::ValueKind);
    }
    let size = 1 + f.len + r.len;
    if 256 < size {
        return Answer::refused(Refusal::ValueLong);
    }
    let mut whole = [0u8; 256];
    rebuild(
        &mut whole, arena, parts.kind, f.start, f.len, r.start, r.len,
    );
    let v = &whole[..size];
    let node = parts.subject;
    put_node(sheet, table, arena, slots, scope, cells, node, v, at)
}

// A list case (17), a truth case (18) or a split (19): the old subject, and then the branch that the view takes.
#[cycle(put)]
fn put_case(
    sheet: &[u8],
    table: &Table,
    arena: &mut [u8],
    slots: &mut Slots,
    scope: Scope,
    cells: &Cells,
    own: Pos,
    view: &[u8],
    at: At,
) -> Answer
    requires kind_asked { KindAsked sheet.now table.now arena.old slots.old scope cells.now own view.now at }
    requires case { Case own.kind }
    ensures { KindTells sheet.now arena.old arena.new slots.old slots.new scope cells.now
        own view.now at result }
{
    let subject = node::number_of(sheet, own.from, 1);
    let got = get_node(sheet, table, arena, scope, subject, at);
    if got.is_refused() {
        return got;
    }
    let to = at.behind(got);
    let first = node::byte_of(sheet, own.from, 3);
    let second = node::byte_of(sheet, own.from, 5);
    match decisions::takes(own.kind, shape_at(arena, got), first, second, view) {
        Branch::Plain(i, byte) => {
            let branch = node::number_of(sheet, own.from, i);
            let by = Plain {
                branch,
                subject,
                byte,
            };
            let put = put_both(sheet, table, arena, slots, scope, cells, by, view, to);
            put.later(got.steps())
        }
        Branch::Parts(i, mid) => {
            let branch = node::number_of(sheet, own.from, i);
            let parts = parts_of(own.kind, branch, subject, got, mid);
            let put = put_under(sheet, table, arena, slots, scope, cells, parts, view, to);
            put.later(got.steps())
        }
        Branch::Switch => {
            let put = put_switch(sheet, table, arena, slots, scope, cells, own.from, view, to);
            put.later(got.steps())
        }
        Branch::Refused(refusal) => Answer::refused(refusal),
    }
}

// The default first and the default rest of a list case, got in the scope `seen`, one after the other from the top on. The answer has the
// length of the first for its start.
fn two_defaults(
    sheet: &[u8],
    table: &Table,
    arena: &mut [u8],
    seen: Scope,
    place: u16,
    at: At,
) -> Answer
    requires { BothAsked sheet.now table.now arena.old seen place at.top at.levels at.left }
    ensures { Defaults sheet.now place (Sees arena.old seen at.top) arena.old arena.new at.top
        at.levels at.left result }
{
    let first = node::number_of(sheet, place, 6);
    let got = get_node(sheet, table, arena, seen, first, at);
    let a = bring(arena, got, at.top);
    if a.is_refused() {
        return a;
    }
    let two = at.behind(a);
    let rest = node::number_of(sheet, place, 7);
    let got = get_node(sheet, table, arena, seen, rest, two);
    let b = bring(arena, got, two.top);
    if b.is_refused() {
        return b;
    }
    let mid = two.top;
    if decisions::unfit(3, arena[mid]) {
        return Answer::refused(Refusal::ValueKind);
    }
    Answer::done(a.len(), b.len(), a.steps() + b.steps())
}

// The defaults of a list case, got in a scope of one variable, the view: it stands at the top while they are got behind it, and then they are
// brought down to where it stood.
fn defaults(
    sheet: &[u8],
    table: &Table,
    arena: &mut [u8],
    place: u16,
    view: &[u8],
    at: At,
) -> Answer
    requires { DefaultsAsked sheet.now table.now arena.old view.now place at.top at.levels at.left }
    ensures { Defaults sheet.now place (Shown view.now) arena.old arena.new at.top at.levels at.left
        result }
{
    let top = at.top;
    let len = view.len();
    scopes::store(arena, top, view);
    let seen = single(top, len);
    let to = at.raised(len);
    let got = two_defaults(sheet, table, arena, seen, place, to);
    if got.is_refused() {
        return got;
    }
    let both = got.start() + got.len();
    copy(arena, to.top, top, both);
    got
}

// A switch to the non-empty branch of a list case: the defaults stand for its variables.
#[cycle(put)]
fn put_switch(
    sheet: &[u8],
    table: &Table,
    arena: &mut [u8],
    slots: &mut Slots,
    scope: Scope,
    cells: &Cells,
    place: u16,
    view: &[u8],
    at: At,
) -> Answer
    requires task_asked { TaskAsked sheet.now table.now arena.old slots.old scope cells.now view.now at (switch_at sheet.now place) }
    requires inner { Inner scope at.cells at.levels }
    requires levels_bound { at.top + 512 + 513 * at.levels ≤ chain_start }
    ensures { TaskTells sheet.now arena.old arena.new slots.old slots.new scope cells.now
        view.now at result (switch_at sheet.now place) }
{
    let got = defaults(sheet, table, arena, place, view, at);
    if got.is_refused() {
        return got;
    }
    let first = got.start();
    let second = got.len();
    let branch = node::number_of(sheet, place, 4);
    let subject = node::number_of(sheet, place, 1);
    let parts = Parts {
        kind: 3,
        branch,
        subject,
        start: at.top,
        first,
        second,
    };
    let then = at.after(got);
    let to = then.raised(first + second);
    let put = put_under(sheet, table, arena, slots, scope, cells, parts, view, to);
    put.later(got.steps())
}

// A call (1A): the section's root, whose two variables are the caller's under other names.
#[cycle(put)]
fn put_call(
    sheet: &[u8],
    table: &Table,
    arena: &mut [u8],
    slots: &mut Slots,
    scope: Scope,
    cells: &Cells,
    own: Pos,
    view: &[u8],
    at: At,
) -> Answer
    requires kind_asked { KindAsked sheet.now table.now arena.old slots.old scope cells.now own view.now at }
    requires kind_value { own.kind ≡ 0x1A }
    ensures { KindTells sheet.now arena.old arena.new slots.old slots.new scope cells.now
        own view.now at result }
{
    let x = node::number_of(sheet, own.from, 2);
    let y = node::number_of(sheet, own.from, 3);
    let count = usize::from(scope.count);
    if count <= x {
        return Answer::refused(Refusal::Scope);
    }
    if count <= y {
        return Answer::refused(Refusal::Scope);
    }
    let root = sheet::section_root(sheet, node::number_of(sheet, own.from, 1));
    let inner = scopes::section(scope, x, y);
    let two = scopes::pick_cells(cells, x, y);
    put_node(sheet, table, arena, slots, inner, &two, root, view, at)
}

// An amount added (1B) is subtracted.
#[cycle(put)]
fn put_add(
    sheet: &[u8],
    table: &Table,
    arena: &mut [u8],
    slots: &mut Slots,
    scope: Scope,
    cells: &Cells,
    own: Pos,
    view: &[u8],
    at: At,
) -> Answer
    requires kind_asked { KindAsked sheet.now table.now arena.old slots.old scope cells.now own view.now at }
    requires kind_value { own.kind ≡ 0x1B }
    ensures { KindTells sheet.now arena.old arena.new slots.old slots.new scope cells.now
        own view.now at result }
{
    let Shape::Number(m) = shapes::shape_of(view) else {
        return Answer::refused(Refusal::ViewKind);
    };
    let amount = u16::from_be_bytes([
        node::byte_of(sheet, own.from, 2),
        node::byte_of(sheet, own.from, 3),
    ]);
    if m < amount {
        return Answer::refused(Refusal::ViewBelow);
    }
    let less = number(m - amount);
    let node = node::number_of(sheet, own.from, 1);
    put_node(sheet, table, arena, slots, scope, cells, node, &less, at)
}

// What the next member stands for: the first of the old ones that are left, whose rest is `mid` bytes further, or past their end the default,
// got anew in an empty scope.
fn stood_for(
    sheet: &[u8],
    table: &Table,
    arena: &mut [u8],
    by: Members,
    mid: Option<usize>,
    at: At,
) -> Answer
    requires { StoodAsked sheet.now table.now arena.old by.default by.old mid at.top at.levels at.left }
    ensures { Stood sheet.now arena.old arena.new by.default by.old at.top at.levels at.left result }
{
    match mid {
        Some(mid) => Answer::done(by.old + 1, mid - 1, 0),
        None => get_node(sheet, table, arena, none(), by.default, at),
    }
}

// A member of the view into the section's root, whose variable 0 is the member's, in a new cell, and whose variable 1 is the caller's own. What
// the member is then stands behind a 03 in `whole`, which has `built` bytes of the list so far. The answer has for its start how many bytes of
// the old list the member took, and for its length how many `whole` has more.
#[cycle(put)]
fn put_one(
    sheet: &[u8],
    table: &Table,
    arena: &mut [u8],
    slots: &mut Slots,
    scope: Scope,
    cells: &Cells,
    turn: Turn,
    view: &[u8],
    whole: &mut [u8; 256],
) -> Answer
    requires members_asked { MembersAsked sheet.now table.now arena.old slots.old scope cells.now turn.by turn.at.cells turn.at.top
        turn.at.levels turn.at.left }
    requires some_view { SomeView view.now }
    requires whole_len { (length whole.old ≡ 256) × (turn.built + 1 ≤ 256) }
    ensures { MemberTold sheet.now arena.old arena.new slots.old slots.new whole.old
        whole.new scope cells.now turn.by view.now turn.built turn.at.cells turn.at.top turn.at.levels
        turn.at.left result }
{
    let by = turn.by;
    let at = turn.at;
    let built = turn.built;
    let old = by.old;
    let mid = shapes::middle(&arena[old..]);
    let stood = stood_for(sheet, table, arena, by, mid, at);
    if stood.is_refused() {
        return stood;
    }
    let start = stood.start();
    let len = stood.len();
    let cell = at.cells;
    slots[cell] = 0;
    let inner = member(scope, by.x, start, len);
    let two = scopes::member_cells(cells, cell, by.x);
    let to = at.behind(stood).with_cells(1);
    let put = put_node(sheet, table, arena, slots, inner, &two, by.root, view, to);
    if put.is_refused() {
        return put;
    }
    let now = scopes::place_of(slots[cell], cell, start, len);
    let size = 1 + now.len;
    if decisions::overlong(built, size) {
        return Answer::refused(Refusal::ValueLong);
    }
    whole[built] = 3;
    fill(whole, built + 1, arena, now.start, now.len);
    Answer::done(mid.unwrap_or(0), size, stood.steps() + put.steps())
}

// The members of the view, from the left, and then the list of what they are into the subject.
#[cycle(put)]
fn put_all(
    sheet: &[u8],
    table: &Table,
    arena: &mut [u8],
    slots: &mut Slots,
    scope: Scope,
    cells: &Cells,
    by: Members,
    view: &[u8],
    at: At,
) -> Answer
    requires members_asked { MembersAsked sheet.now table.now arena.old slots.old scope cells.now by at.cells at.top at.levels at.left }
    requires some_list { SomeList view.now }
    ensures { MembersTold sheet.now arena.old arena.new slots.old slots.new scope
        cells.now by view.now at.cells at.top at.levels at.left result }
{
    let mut whole = [0u8; 256];
    let mut to = at;
    let mut next = by;
    let mut from = 0;
    let mut built = 0;
    // `while`: where the next member starts is read from this one, and an iterator would read it the same way
    while view[from] == 3 {
        let rest = &view[from..];
        let mid = shapes::middle(rest).unwrap_or(0);
        let first = shapes::first_part(rest, mid);
        let turn = Turn {
            by: next,
            built,
            at: to,
        };
        let put = put_one(
            sheet, table, arena, slots, scope, cells, turn, first, &mut whole,
        );
        if put.is_refused() {
            return put;
        }
        to = to.after(put);
        next.old += put.start();
        from += mid;
        built += put.len();
    }
    whole[built] = 2;
    let size = built + 1;
    let v = &whole[..size];
    let put = put_node(sheet, table, arena, slots, scope, cells, by.subject, v, to);
    put.later(at.left - to.left)
}

// Each (1C): the members of the view, each into the section's root, and then the list of what they are into the subject.
#[cycle(put)]
fn put_each(
    sheet: &[u8],
    table: &Table,
    arena: &mut [u8],
    slots: &mut Slots,
    scope: Scope,
    cells: &Cells,
    own: Pos,
    view: &[u8],
    at: At,
) -> Answer
    requires kind_asked { KindAsked sheet.now table.now arena.old slots.old scope cells.now own view.now at }
    requires kind_value { own.kind ≡ 0x1C }
    ensures { KindTells sheet.now arena.old arena.new slots.old slots.new scope cells.now
        own view.now at result }
{
    if decisions::unfit(3, view[0]) {
        return Answer::refused(Refusal::ViewKind);
    }
    let subject = node::number_of(sheet, own.from, 1);
    let got = get_node(sheet, table, arena, scope, subject, at);
    if got.is_refused() {
        return got;
    }
    let old = got.start();
    if decisions::unfit(3, arena[old]) {
        return Answer::refused(Refusal::ValueKind);
    }
    let x = node::number_of(sheet, own.from, 3);
    let count = usize::from(scope.count);
    if count <= x {
        return Answer::refused(Refusal::Scope);
    }
    let root = sheet::section_root(sheet, node::number_of(sheet, own.from, 2));
    let default = node::number_of(sheet, own.from, 4);
    let by = Members {
        subject,
        x,
        root,
        default,
        old,
    };
    let to = at.behind(got);
    let put = put_all(sheet, table, arena, slots, scope, cells, by, view, to);
    put.later(got.steps())
}
