//! Nodes that are used twice, as a child or a root.
ghost use Rattle.std.specs.Prelude.{List, [], ◌∷◌, ◌++◌, ◌≡◌, ◌==◌, ℕ, ◌≤◌, length, take, position};
ghost use Rattle.node.specs.Kinds.{children};
ghost use Rattle.sheet.specs.Laws.{Reads};
ghost use Rattle.sheet.specs.Sheet.{Sheet};
ghost use Rattle.typing.specs.Check.{lowest, twice};
ghost use Rattle.types.specs.Uses.{Counted, Roots, lowest_in};

use node::Node;
use sheet::Table;

// One use more of node n: 2 stands for two and more.
fn count(uses: &mut [u8; 200], n: usize)
    ensures { (l : List ℕ) → Counted uses.old l → Counted uses.new (l ++ (n ∷ [])) }
{
    if n < 200 {
        if uses[n] < 2 {
            uses[n] += 1;
        }
    }
}

// Two.
fn count_two(uses: &mut [u8; 200], a: usize, b: usize)
    ensures { (l : List ℕ) → Counted uses.old l → Counted uses.new (l ++ (a ∷ b ∷ [])) }
{
    count(uses, a);
    count(uses, b);
}

// The uses of a node's children.
fn count_children(uses: &mut [u8; 200], n: Node)
    ensures { (l : List ℕ) → Counted uses.old l → Counted uses.new (l ++ children n) }
{
    match n {
        Node::Front { first, rest } => count_two(uses, first, rest),
        Node::Pair { left, right } => count_two(uses, left, right),
        Node::ListCase {
            subject,
            empty,
            front,
            first,
            rest,
            ..
        } => {
            count_two(uses, subject, empty);
            count(uses, front);
            count_two(uses, first, rest);
        }
        Node::TruthCase {
            subject,
            no,
            yes,
            ..
        } => {
            count(uses, subject);
            count_two(uses, no, yes);
        }
        Node::Split { subject, inner } => count_two(uses, subject, inner),
        Node::Add { node, .. } => count(uses, node),
        Node::Each {
            subject,
            default,
            ..
        } => count_two(uses, subject, default),
        _ => {}
    }
}

// The uses of the roots.
fn count_roots(uses: &mut [u8; 200], sheet: &[u8], root: usize, sections: usize)
    ensures { (rs : List ℕ) → Roots sheet.now sections rs → Counted uses.old [] → Counted uses.new (root ∷ rs) }
{
    count(uses, root);
    for c in 0..sections {
        count(uses, sheet::section_root(sheet, c));
    }
}

// The lowest node that is used twice: first all uses are counted, of the roots and of every node's children.
pub fn first_used_twice(sheet: &[u8], t: Table) -> Option<usize>
    requires { t.nodes ≤ 200 }
    ensures { (sh : Sheet) → Reads sheet.now t sh → result ≡ lowest_in (lowest (twice sh) 0 (length sh.nodes)) }
{
    let mut uses = [0u8; 200];
    count_roots(&mut uses, sheet, t.root, t.sections);
    for &start in &t.starts[..t.nodes] {
        count_children(&mut uses, node::node_at(sheet, usize::from(start)));
    }
    lowest_of(&uses, t.nodes)
}

// The lowest of these nodes with two uses.
fn lowest_of(uses: &[u8; 200], nodes: usize) -> Option<usize>
    requires { nodes ≤ 200 }
    ensures { result ≡ position (λ n. n == 2) (take nodes uses.now) }
{
    uses[..nodes].iter().position(|&n| n == 2)
}
