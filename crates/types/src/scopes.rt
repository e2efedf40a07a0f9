//! Scopes: how many variables, and where their types are found. A node stands in the first scope that it is put into.
ghost use Rattle.std.specs.Prelude.{◌≡◌, List, [], ◌∷◌, ℕ, ◌+◌, ◌*◌, ◌≤◌, ◌<◌, MatchOption};
ghost use Rattle.std.proofs.Math.Option.{none};
ghost use Rattle.std.proofs.Math.ListN.{get_elem?};
ghost use Rattle.node.specs.Kinds.{row};
ghost use Rattle.typing.specs.Fits.{Scope};
ghost use Rattle.types.specs.Scopes.{StandsIn, IsType, slots, widen, view_of, Put, PutAll, child_scopes, section_scopes};
ghost use Rattle.types.specs.Uses.{Roots};

use crate::lent::{Lent, NODES, SECTIONS, parts_of};
use node::Node;

/// Where the types of a scope's variables are found.
#[derive(Clone, Copy, Debug, PartialEq, Eq)]
pub enum Found {
    /// In the slots from this one on.
    From(usize),
    /// In the scope of this node; and two variables more have the parts of its type.
    Inside(usize),
}

/// A scope: how many variables it has, and where their types are found.
#[derive(Clone, Copy, Debug, PartialEq, Eq)]
pub struct View {
    pub width: usize,
    pub found: Found,
}

// So many variables, whose types stand in the slots from this one on.
fn slots(width: usize, slot: usize) -> View
    ensures { result ≡ slots width slot }
{
    View {
        width,
        found: Found::From(slot),
    }
}

// One variable alone, the view of node i.
fn view_of(i: usize) -> View
    requires { i < 200 }
    ensures { result ≡ view_of i }
{
    slots(1, NODES + i)
}

// The scope of node `subject`, and two variables more: the parts of its type.
fn widened(view: View, subject: usize) -> View
    requires { view.width < 1000 }
    ensures { result ≡ widen view subject }
{
    View {
        width: view.width + 2,
        found: Found::Inside(subject),
    }
}

// Node n stands in this scope, unless it stands in one already.
fn place(stand: &mut [Option<View>; 200], n: usize, view: View)
    ensures { Put stand.old n view stand.new }
{
    if n < 200 {
        if stand[n].is_none() {
            stand[n] = Some(view);
        }
    }
}

// Two.
fn place_two(stand: &mut [Option<View>; 200], a: usize, b: usize, view: View)
    ensures { PutAll stand.old ((a, view) ∷ (b, view) ∷ []) stand.new }
{
    place(stand, a, view);
    place(stand, b, view);
}

// The roots: the main one in the plan's scope, and that of each section in the scope of its two variables.
pub fn place_roots(
    stand: &mut [Option<View>; 200],
    sheet: &[u8],
    k: usize,
    root: usize,
    sections: usize,
)
    requires { (k ≤ 16) × (sections ≤ 8) }
    ensures { (rs : List ℕ) → Roots sheet.now sections rs
        → PutAll stand.old ((root, slots k 0) ∷ section_scopes 0 rs) stand.new }
{
    place(stand, root, slots(k, 0));
    for c in 0..sections {
        place(
            stand,
            sheet::section_root(sheet, c),
            slots(2, SECTIONS + 3 * c),
        );
    }
}

// The children of node i, which is n and stands in this scope, where it is a case on a list.
fn place_list_case(stand: &mut [Option<View>; 200], n: Node, i: usize, view: View)
    requires { (view.width < 1000) × (i < 200) }
    ensures { (row n).kind ≡ 0x17 → PutAll stand.old (child_scopes view i n) stand.new }
{
    let Node::ListCase {
        subject,
        empty,
        front,
        first,
        rest,
        ..
    } = n
    else {
        return;
    };
    place_two(stand, subject, empty, view);
    place(stand, front, widened(view, subject));
    place_two(stand, first, rest, view_of(i));
}

// The same of any node.
pub fn place_children(stand: &mut [Option<View>; 200], n: Node, i: usize, view: View)
    requires { (view.width < 1000) × (i < 200) }
    ensures { PutAll stand.old (child_scopes view i n) stand.new }
{
    match n {
        Node::Front { first, rest } => place_two(stand, first, rest, view),
        Node::Pair { left, right } => place_two(stand, left, right, view),
        Node::ListCase { .. } => place_list_case(stand, n, i, view),
        Node::TruthCase {
            subject,
            no,
            yes,
            ..
        } => {
            place(stand, subject, view);
            place_two(stand, no, yes, view);
        }
        Node::Split { subject, inner } => {
            place(stand, subject, view);
            place(stand, inner, widened(view, subject));
        }
        Node::Add { node, .. } => place(stand, node, view),
        Node::Each {
            subject,
            default,
            ..
        } => {
            place(stand, subject, view);
            place(stand, default, slots(0, 0));
        }
        _ => {}
    }
}

// The type of variable x in the scope of node n, if it has that variable. It climbs from the scope of a case to the one around it.
pub fn variable<'a>(
    lent: Lent<'a>,
    stand: &[Option<View>; 200],
    n: usize,
    x: usize,
) -> Option<&'a [u8]>
    requires { (n < 200) × ((Γ : Scope) × StandsIn lent.types.now lent.starts.now stand.now n Γ) }
    ensures { (Γ : Scope) → StandsIn lent.entry.types.now lent.entry.starts.now stand.now n Γ
        → MatchOption result (get_elem? Γ x ≡ none) (λ t. IsType t.now (get_elem? Γ x)) }
{
    let mut view = stand[n]?;
    if view.width <= x {
        return None;
    }
    // The next scope stands where this one says, so that no iterator goes over them.
    loop {
        let subject = match view.found {
            Found::From(slot) => return Some(lent.type_in(slot + x)),
            Found::Inside(subject) => subject,
        };
        let outer = stand[subject]?;
        if outer.width <= x {
            let (first, second) = parts_of(lent.type_in(NODES + subject))?;
            return Some(if outer.width < x { second } else { first });
        }
        view = outer;
    }
}
