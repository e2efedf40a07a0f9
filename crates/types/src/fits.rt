//! Nodes that do not have their lent type.
ghost use Rattle.std.specs.Prelude.{◌≡◌, ◌==◌, ℕ, ◌+◌, ◌*◌, ◌≤◌, ◌<◌, length, get_or, List};
ghost use Rattle.std.proofs.Math.ListN.{get_elem?};
ghost use Rattle.typing.specs.Types.{Ty};
ghost use Rattle.typing.specs.Fits.{Lent as Types, Scope};
ghost use Rattle.typing.specs.Check.{at?, placed?, unfit, lowest};
ghost use Rattle.types.specs.Rooted.{Rooted, asked};
ghost use Rattle.types.specs.Unfit.{Ready};
ghost use Rattle.types.specs.Uses.{lowest_in};
ghost use Rattle.sheet.specs.Sheet.{Sheet};
ghost use Rattle.types.specs.Slots.{At};
ghost use Rattle.types.specs.Scopes.{Entry, StandsIn};
ghost use Rattle.types.specs.Decided.{holds, Fitted};
ghost use Rattle.node.specs.Kinds.{row};

use crate::lent::{Kind, Lent, NODES, PAST, SECTIONS, VIEW};
use crate::scopes::{View, place_children, place_roots, variable};
use node::Node;
use sheet::Table;

// The slot of a node's type.
fn of_node(n: usize) -> usize
    ensures { n < 200 → result ≡ 41 + n }
{
    if n < 200 { NODES + n } else { PAST }
}

// The slot of a section's type: of its first variable, its second, or its result.
fn of_section(c: usize, which: usize) -> usize
    requires { which ≤ 2 }
    ensures { c < 8 → result ≡ 16 + 3 * c + which }
{
    if c < 8 {
        SECTIONS + 3 * c + which
    } else {
        PAST
    }
}

// Whether variable x of the scope of node i has the type in the slot.
fn is_typed(lent: Lent, stand: &[Option<View>; 200], i: usize, x: usize, slot: usize) -> bool
    requires { (i < 200) × ((Γ : Scope) × StandsIn lent.types.now lent.starts.now stand.now i Γ) }
    ensures { (Γ : Scope) (t : Ty) → StandsIn lent.entry.types.now lent.entry.starts.now stand.now i Γ
        → At lent.entry.types.now lent.entry.starts.now slot t → result ≡ holds (at? (get_elem? Γ x) t) }
{
    match variable(lent, stand, i, x) {
        Some(t) => shapes::same(t, lent.type_in(slot)),
        None => false,
    }
}

// Whether node i, which is n, has its lent type, where it is a case on a list.
fn fits_list_case(lent: Lent, n: Node, i: usize) -> bool
    ensures { (stand : List Entry) → (row n).kind ≡ 0x17 → Fitted lent.entry.types.now lent.entry.starts.now stand i n result }
{
    let Node::ListCase {
        subject,
        empty,
        front,
        first,
        rest,
        ..
    } = n
    else {
        return false;
    };
    let s = of_node(subject);
    let t = of_node(i);
    lent.is_list_of(s, of_node(first))
        & lent.is_same(of_node(rest), s)
        & lent.is_same(of_node(empty), t)
        & lent.is_same(of_node(front), t)
}

// The same of a case on a truth.
fn fits_truth_case(lent: Lent, n: Node, i: usize) -> bool
    ensures { (stand : List Entry) → (row n).kind ≡ 0x18 → Fitted lent.entry.types.now lent.entry.starts.now stand i n result }
{
    let Node::TruthCase {
        subject,
        no,
        yes,
        ..
    } = n
    else {
        return false;
    };
    let t = of_node(i);
    lent.is_of(of_node(subject), Kind::Truths)
        & lent.is_same(of_node(no), t)
        & lent.is_same(of_node(yes), t)
}

// The same of a call.
fn fits_call(lent: Lent, stand: &[Option<View>; 200], n: Node, i: usize) -> bool
    requires { (i < 200) × ((Γ : Scope) × StandsIn lent.types.now lent.starts.now stand.now i Γ) }
    ensures { (row n).kind ≡ 0x1A → Fitted lent.entry.types.now lent.entry.starts.now stand.now i n result }
{
    let Node::Call {
        section,
        first,
        second,
    } = n
    else {
        return false;
    };
    is_typed(lent, stand, i, first, of_section(section, 0))
        & is_typed(lent, stand, i, second, of_section(section, 1))
        & lent.is_same(of_node(i), of_section(section, 2))
}

// The same of an each.
fn fits_each(lent: Lent, stand: &[Option<View>; 200], n: Node, i: usize) -> bool
    requires { (i < 200) × ((Γ : Scope) × StandsIn lent.types.now lent.starts.now stand.now i Γ) }
    ensures { (row n).kind ≡ 0x1C → Fitted lent.entry.types.now lent.entry.starts.now stand.now i n result }
{
    let Node::Each {
        subject,
        section,
        variable,
        default,
    } = n
    else {
        return false;
    };
    let first = of_section(section, 0);
    lent.is_list_of(of_node(subject), first)
        & lent.is_same(of_node(default), first)
        & is_typed(lent, stand, i, variable, of_section(section, 1))
        & lent.is_list_of(of_node(i), of_section(section, 2))
}

// Whether node i, which is n, has its lent type in its scope, by the types that its children have been lent.
fn fits(lent: Lent, stand: &[Option<View>; 200], n: Node, i: usize) -> bool
    requires { (i < 200) × ((Γ : Scope) × StandsIn lent.types.now lent.starts.now stand.now i Γ) }
    ensures { Fitted lent.entry.types.now lent.entry.starts.now stand.now i n result }
{
    let t = of_node(i);
    match n {
        Node::Var(x) => is_typed(lent, stand, i, x, t),
        Node::False => lent.is_of(t, Kind::Truths),
        Node::True => lent.is_of(t, Kind::Truths),
        Node::Empty => lent.is_of(t, Kind::Lists),
        Node::Number(_) => lent.is_of(t, Kind::Numbers),
        Node::Front { first, rest } => {
            lent.is_list_of(t, of_node(first)) & lent.is_same(of_node(rest), t)
        }
        Node::Pair { left, right } => lent.is_pair_of(t, of_node(left), of_node(right)),
        Node::ListCase { .. } => fits_list_case(lent, n, i),
        Node::TruthCase { .. } => fits_truth_case(lent, n, i),
        Node::Split { subject, inner } => {
            lent.is_of(of_node(subject), Kind::Pairs) & lent.is_same(of_node(inner), t)
        }
        Node::Call { .. } => fits_call(lent, stand, n, i),
        Node::Add { node, .. } => {
            lent.is_of(t, Kind::Numbers) & lent.is_of(of_node(node), Kind::Numbers)
        }
        Node::Each { .. } => fits_each(lent, stand, n, i),
        Node::Wide(_) => lent.is_of(t, Kind::Numbers),
    }
}

// Whether node i, where it is this root, has the type in the slot.
fn is_asked(lent: Lent, i: usize, slot: usize, root: usize) -> bool
    requires { i < 200 }
    ensures { result ≡ asked lent.entry.types.now lent.entry.starts.now i slot (root == i) }
{
    if root != i {
        return true;
    }
    lent.is_same(NODES + i, slot)
}

// Whether node i, where it is a root, has the type that is asked there.
fn is_placed(sheet: &[u8], root: usize, sections: usize, lent: Lent, i: usize) -> bool
    requires { (i < 200) × (sections ≤ 8) }
    ensures { (sh : Sheet) (ts : Types) → Rooted sheet.now lent.entry.types.now lent.entry.starts.now root sections i sh ts
        → result ≡ holds (placed? sh ts i) }
{
    if !is_asked(lent, i, VIEW, root) {
        return false;
    }
    for c in 0..sections {
        if !is_asked(lent, i, of_section(c, 2), sheet::section_root(sheet, c)) {
            return false;
        }
    }
    true
}

// The lowest node that is reached from a root and does not have its lent type. A node stands behind those that name it, so that its scope is known
// where it is met.
pub fn first_unfit(sheet: &[u8], t: Table, lent: Lent) -> Option<usize>
    requires { Ready sheet.now t lent.types.now lent.starts.now }
    ensures { (g : Ready sheet.now t lent.entry.types.now lent.entry.starts.now)
        → result ≡ lowest_in (lowest (unfit g.sh g.ts) 0 (length g.sh.nodes)) }
{
    let mut stand = [None; 200];
    place_roots(&mut stand, sheet, t.k, t.root, t.sections);
    for i in 0..t.nodes {
        let Some(view) = stand[i] else {
            continue;
        };
        let n = node::node_at(sheet, usize::from(t.starts[i]));
        if !fits(lent, &stand, n, i) {
            return Some(i);
        }
        if !is_placed(sheet, t.root, t.sections, lent, i) {
            return Some(i);
        }
        place_children(&mut stand, n, i, view);
    }
    None
}
