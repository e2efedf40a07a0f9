//! How much longer the list can get (document 02, request 14): how often a variable's length counts in the list's.
#![tactic(auto)]

ghost use Rattle.std.specs.Prelude.{◌≡◌, ◌+◌, min, get_or};
ghost use Rattle.value.specs.Numbered.{numbered};
ghost use Rattle.growth.specs.Growth.{plain, growth_of};
ghost use Rattle.growth.specs.Tool.{Readied, AllJudged, OneCounted, Counted};

use node::Node;
use refusal::Refusal;
use sheet::Table;

// The most times that are told, and where counts stop.
const MOST: u16 = 256;

const OVER: u16 = 257;

// Whether a node is of the kinds 10 to 16, 1B and 1D.
fn is_plain(node: Node) -> bool
    ensures { result ≡ plain node }
{
    !matches!(
        node,
        Node::ListCase { .. }
            | Node::TruthCase { .. }
            | Node::Split { .. }
            | Node::Call { .. }
            | Node::Each { .. }
    )
}

// Whether every node of a sheet is.
fn all_plain(sheet: &[u8], table: Table) -> bool
    requires { Readied sheet.now table }
    ensures { AllJudged sheet.now result }
{
    for &start in &table.starts[..table.nodes] {
        if !is_plain(node::node_at(sheet, usize::from(start))) {
            return false;
        }
    }
    true
}

// The count of a node that another one names.
fn count_at(counts: &[u16], node: usize) -> u16
    ensures { result ≡ get_or counts.now node 0 }
{
    counts.get(node).copied().unwrap_or(0)
}

// The sum of two counts, capped.
fn sum(a: u16, b: u16) -> u16
    ensures { result ≡ min 257 (a + b) }
{
    a.saturating_add(b).min(OVER)
}

// How often a walk from this node enters the variable's records, of the counts behind it.
fn count_of(node: Node, variable: usize, counts: &[u16]) -> u16
    ensures { OneCounted node variable counts.now result }
{
    match node {
        Node::Var(x) => u16::from(x == variable),
        Node::Front { first, rest } => sum(count_at(counts, first), count_at(counts, rest)),
        Node::Pair { left, right } => sum(count_at(counts, left), count_at(counts, right)),
        Node::Add { node, .. } => sum(count_at(counts, node), 0),
        _ => 0,
    }
}

// How often a walk from the root does, capped: counted from the last node to the first.
fn count(sheet: &[u8], table: Table, variable: usize) -> u16
    requires { Readied sheet.now table }
    ensures { Counted sheet.now variable result }
{
    let mut counts = [0u16; 200];
    for i in (0..table.nodes).rev() {
        let at = usize::from(table.starts[i]);
        counts[i] = count_of(node::node_at(sheet, at), variable, &counts);
    }
    counts[table.root]
}

/// How often a walk from the sheet's root enters a record of the variable, every refusal left aside. Refusals: the sheet's (10 to 14), then 87 a
/// node of another kind than 10 to 16, 1B and 1D, 23 no such variable, 88 more than 256 times.
pub fn growth(sheet: &[u8], variable: usize) -> Result<u16, Refusal>
    ensures { numbered result ≡ growth_of sheet.now variable }
{
    let table = sheet::read_sheet(sheet)?;
    if !all_plain(sheet, table) {
        return Err(Refusal::OtherKind);
    }
    if table.k <= variable {
        return Err(Refusal::Variable);
    }
    let r = count(sheet, table, variable);
    if MOST < r {
        return Err(Refusal::GrowthLarge);
    }
    Ok(r)
}
