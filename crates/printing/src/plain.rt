//! Which nodes have no case in them.
ghost use Rattle.std.specs.Prelude.{◌≡◌, [], ◌∷◌, ◌≤◌};
ghost use Rattle.sheet.specs.Sheet.{Sheet};
ghost use Rattle.sheet.specs.Laws.{Reads};
ghost use Rattle.syntax.specs.Printer.{all_plain};
ghost use Rattle.printing.specs.Flat.{flat_in, plain_of, Flats};

use crate::nodes::record_at;
use node::Node;
use sheet::Table;

// Whether node n is marked as one.
#[tactic(auto, unfolding(crate::specs::Flat::flat_in))]
fn is_plain(plain: &[bool; 200], n: usize) -> bool
    ensures { result ≡ flat_in plain.now n }
{
    plain.get(n).copied().unwrap_or(false)
}

// Whether both are.
fn both_plain(plain: &[bool; 200], a: usize, b: usize) -> bool
    ensures { result ≡ all_plain (flat_in plain.now) (a ∷ b ∷ []) }
{
    is_plain(plain, a) && is_plain(plain, b)
}

// Whether a node has no case in it, where those that it names are marked.
fn plain_node(node: Node, plain: &[bool; 200]) -> bool
    ensures { result ≡ plain_of plain.now node }
{
    match node {
        Node::Var(_) => true,
        Node::False => true,
        Node::True => true,
        Node::Empty => true,
        Node::Number(_) => true,
        Node::Front { first, rest } => both_plain(plain, first, rest),
        Node::Pair { left, right } => both_plain(plain, left, right),
        Node::ListCase { .. } => false,
        Node::TruthCase { .. } => false,
        Node::Split { subject, inner } => both_plain(plain, subject, inner),
        Node::Call { .. } => true,
        Node::Add { node: of, .. } => is_plain(plain, of),
        Node::Each {
            subject,
            default,
            ..
        } => both_plain(plain, subject, default),
        Node::Wide(_) => true,
    }
}

/// A mark for each node of a sheet that has no case in it: from the last to the first, so that those that a node names are judged before it.
pub fn plain_nodes(sheet: &[u8], t: Table) -> [bool; 200]
    requires { t.nodes ≤ 200 }
    ensures { (sh : Sheet) → Reads sheet.now t sh → Flats sh 0 result }
{
    let mut plain = [false; 200];
    for n in (0..t.nodes).rev() {
        let node = record_at(sheet, t.starts[n]);
        plain[n] = plain_node(node, &plain);
    }
    plain
}
