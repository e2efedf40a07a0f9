//! The variables in scope: where each one's value stands, which cell it is, what is noted of the cell's slot, and a view stored there.
#![tactic(auto)]

ghost use Rattle.std.specs.Prelude.{◌≡◌, ◌+◌, ◌≤◌, ◌<◌, length, get_or};
ghost use Rattle.std.proofs.Math.Seq.{paste};
ghost use Rattle.outcome.specs.Outcome.{done_as};
ghost use Rattle.rules.specs.Numbers.{variable_limit};
ghost use Rattle.scopes.specs.Scopes.{When, front_two, picked_two, added_two, picked, in_room, nowhere, note_of, noted_len, noted_by, slot_of, place_of};

use outcome::Answer;
use refusal::Refusal;

/// The variables in scope, at most rules::VARIABLES: where each one's bytes start, and how many they are less one.
#[derive(Clone, Copy, Debug, PartialEq, Eq)]
pub struct Scope {
    pub count: u16,
    pub starts: [u16; rules::VARIABLES],
    pub lens: [u8; rules::VARIABLES],
}

/// Where a value stands.
#[derive(Clone, Copy, Debug, PartialEq, Eq)]
pub struct Span {
    pub start: usize,
    pub len: usize,
}

/// The length of a value, of which a scope stores one less.
pub fn length_of(stored: u8) -> usize
    ensures { result ≡ stored + 1 }
{
    usize::from(stored) + 1
}

/// The value of variable x, which costs no step of its own; refusal 42 where it is not in scope.
pub fn variable(scope: Scope, x: usize) -> Answer
    ensures { When ((x < scope.count) × (x < variable_limit)) result (done_as (get_or scope.starts x 0) (get_or scope.lens x 0 + 1) 0) 42 }
{
    if usize::from(scope.count) <= x {
        return Answer::refused(Refusal::Scope);
    }
    if rules::VARIABLES <= x {
        return Answer::refused(Refusal::Scope);
    }
    Answer::done(usize::from(scope.starts[x]), length_of(scope.lens[x]), 0)
}

// A variable's number, or 0 where no scope has room for it.
#[tactic(auto, unfolding(crate::specs::Scopes::in_room))]
fn in_room(x: usize) -> usize
    ensures { (result ≡ in_room x) × (result < variable_limit) }
{
    if rules::VARIABLES <= x {
        return 0;
    }
    x
}

/// The variables x and y alone, a section's. Where no scope has room for one of them, variable 0 stands for it.
pub fn section(scope: Scope, x: usize, y: usize) -> Scope
    ensures { result ≡ picked scope (in_room x) (in_room y) }
{
    let a = in_room(x);
    let b = in_room(y);
    let mut two = scope;
    two.count = 2;
    two.starts[0] = scope.starts[a];
    two.starts[1] = scope.starts[b];
    two.lens[0] = scope.lens[a];
    two.lens[1] = scope.lens[b];
    two
}

/// The cells of the two variables x and y alone: a section's variables are its caller's.
pub fn pick_cells(cells: &[u8; rules::VARIABLES], x: usize, y: usize) -> [u8; rules::VARIABLES]
    ensures { When ((x < variable_limit) × (y < variable_limit)) result (picked_two cells.now x y) cells.now }
{
    let mut two = *cells;
    if rules::VARIABLES <= x {
        return two;
    }
    if rules::VARIABLES <= y {
        return two;
    }
    two[0] = cells[x];
    two[1] = cells[y];
    two
}

/// The cells of a member and of the variable x alone: the member's is c, and x is its caller's.
pub fn member_cells(cells: &[u8; rules::VARIABLES], c: usize, x: usize) -> [u8; rules::VARIABLES]
    ensures { When ((c < variable_limit) × (x < variable_limit)) result (front_two cells.now c (get_or cells.now x 0)) cells.now }
{
    let mut two = *cells;
    if rules::VARIABLES <= c {
        return two;
    }
    if rules::VARIABLES <= x {
        return two;
    }
    two[0] = c as u8;
    two[1] = cells[x];
    two
}

/// The variables n and n + 1 are the new cells c and c + 1; nothing changes where there is no room for them.
pub fn add_cells(cells: &mut [u8; rules::VARIABLES], n: usize, c: usize)
    ensures { When ((c + 2 ≤ variable_limit) × (n + 2 ≤ variable_limit)) cells.new (added_two cells.old n c (c + 1)) cells.old }
{
    if 108 < c {
        return;
    }
    if 108 < n {
        return;
    }
    cells[n] = c as u8;
    cells[n + 1] = (c + 1) as u8;
}

/// What is noted of a slot that node `by` writes `len` bytes to: one more than the node, and one less than the length. It is not 0, which is
/// noted of a slot that nothing was written to.
// A number and no `Option`: docs/DECISIONS.md names it, and `arena::write` promises what becomes of it.
#[tactic(auto, unfolding(crate::specs::Scopes::note_of))]
pub fn note_of(by: u8, len: usize) -> u16
    ensures { When ((by < 255) × (1 ≤ len) × (len ≤ 256)) result (note_of by len) 0 }
{
    if 254 < by {
        return 0;
    }
    if len == 0 {
        return 0;
    }
    if 256 < len {
        return 0;
    }
    256 * (u16::from(by) + 1) + (len - 1) as u16
}

/// The length that a note has.
#[tactic(auto, unfolding(crate::specs::Scopes::noted_len))]
pub fn noted_len(note: u16) -> usize
    ensures { result ≡ noted_len note }
{
    usize::from(note % 256) + 1
}

/// The node that a note has.
#[tactic(auto, unfolding(crate::specs::Scopes::noted_by))]
pub fn noted_by(note: u16) -> u8
    ensures { result ≡ noted_by note }
{
    if note < 256 {
        return 0;
    }
    (note / 256 - 1) as u8
}

/// Where a variable's value stands: in the slot of its cell where it was written, by what is noted of it, or else where it stood; nowhere
/// where there is no such cell.
#[tactic(auto, using(crate::specs::ScopesLaws::when_in, crate::specs::ScopesLaws::not_written, crate::specs::ScopesLaws::was_written))]
pub fn place_of(note: u16, cell: usize, start: usize, len: usize) -> Span
    ensures { When (cell < variable_limit) result (place_of note cell start len) nowhere }
{
    if rules::VARIABLES <= cell {
        return Span { start: 0, len: 0 };
    }
    if note == 0 {
        return Span { start, len };
    }
    Span {
        start: rules::SLOTS + rules::SLOT * cell,
        len: noted_len(note),
    }
}

/// Where the slot of a cell starts in the arena; 0 where there is no such cell.
pub fn slot_of(cell: usize) -> usize
    ensures { When (cell < variable_limit) result (slot_of cell) 0 }
{
    if rules::VARIABLES <= cell {
        return 0;
    }
    rules::SLOTS + rules::SLOT * cell
}

/// Copies a slice into the arena; nothing changes where it does not fit.
pub fn store(arena: &mut [u8], at: usize, from: &[u8])
    ensures { When (at + length from.now ≤ length arena.old) arena.new
        (paste arena.old at from.now (length from.now)) arena.old }
{
    if arena.len() < at {
        return;
    }
    if arena.len() - at < from.len() {
        return;
    }
    // by a loop: of `copy_from_slice` the compiler makes a call of `memmove` here, which the archive would have to ask its host for
    for i in 0..from.len() {
        arena[at + i] = from[i];
    }
}
