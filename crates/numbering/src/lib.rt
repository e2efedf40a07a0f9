//! One numbering for a sheet file: nodes are numbered as they are first met (document 02, request 12).
#![tactic(auto)]

ghost use Rattle.std.specs.Prelude.{◌≡◌, ◌≤◌, ◌<◌, ◌==◌, length, take};
ghost use Rattle.std.specs.List.{position};
ghost use Rattle.value.specs.Result.{ok};
ghost use Rattle.sheet.specs.Sheet.{Sheet, read_sheet};
ghost use Rattle.sheet.specs.Table.{table_of};
ghost use Rattle.report.specs.Writing.{Wrote};
ghost use Rattle.preorder.specs.NumberAnswer.{number_answer};
ghost use Rattle.numbering.specs.Replies.{told, reply_of, output_of};
ghost use Rattle.numbering.specs.Counting.{used, used_all, roots_at, used_twice, Fine, Counts};
ghost use Rattle.numbering.specs.declared.Fault.TheVariants.{Refused};
ghost use Rattle.numbering.specs.Meeting.{Single, Ordered};
ghost use Rattle.numbering.specs.Places.{Placed, Numbers, text_anew};

use records::Anew;
use refusal::Refusal;
use sheet::Table;

/// The bytes of output that numbering takes.
pub const OUTPUT: usize = 2_048;

/// Why a sheet has no numbering: a refusal; or 81, with the lowest node that is used twice.
#[derive(Clone, Copy, Debug, PartialEq, Eq)]
pub enum Fault {
    Refused(Refusal),
    Twice(usize),
}

impl From<Refusal> for Fault {
    ghost from_gives = { λ e f. f ≡ Refused e };

    fn from(refusal: Refusal) -> Fault {
        Fault::Refused(refusal)
    }
}

/// What numbering gives: the length of the sheet in the one numbering, which is at the front of the output; or why there is none.
pub type Numbered = Result<usize, Fault>;

// A list of nodes: `count` numbers, at the front of `nodes`. No heap in the core: so no Vec.
#[derive(Clone, Copy, Debug, PartialEq, Eq)]
struct Nodes {
    count: usize,
    nodes: [u8; 256],
}

// One use more of node n, counted up to two.
fn count_use(uses: &mut [u8; 256], n: usize)
    ensures { uses.new ≡ used uses.old n }
{
    if 256 <= n {
        return;
    }
    if 2 <= uses[n] {
        return;
    }
    uses[n] += 1;
}

// One use more of each of these nodes.
fn count_all(uses: &mut [u8; 256], ns: &[u8])
    ensures { uses.new ≡ used_all uses.old ns.now }
{
    for n in ns {
        count_use(uses, usize::from(*n));
    }
}

// One use more of the main root and of the root of each section.
fn count_roots(uses: &mut [u8; 256], sheet: &[u8], t: Table)
    ensures { uses.new ≡ used_all uses.old (roots_at sheet.now t) }
{
    count_use(uses, t.root);
    for i in 0..t.sections {
        count_use(uses, sheet::section_root(sheet, i));
    }
}

// The main root and the root of each section, at a place of a list.
fn write_roots(sheet: &[u8], t: Table, list: &mut [u8], at: usize) -> usize
    requires { t.root < 256 }
    ensures { Wrote (roots_at sheet.now t) at list.old list.new result }
{
    let mut end = report::byte(list, at, t.root as u8);
    for i in 0..t.sections {
        let root = sheet::section_root(sheet, i);
        end = report::byte(list, end, root as u8);
    }
    end
}

// How often each node of a sheet is used as a child or a root, counted up to two.
fn count_uses(sheet: &[u8], t: Table) -> [u8; 256]
    requires { t.nodes ≤ 200 }
    ensures { Fine sheet.now t → Counts sheet.now result }
{
    let mut uses = [0u8; 256];
    count_roots(&mut uses, sheet, t);
    for start in &t.starts[..t.nodes] {
        let c = sheet::children_at(sheet, *start);
        count_all(&mut uses, &c.nodes[..c.count]);
    }
    uses
}

// The lowest of the first nodes that is used twice.
fn lowest(uses: [u8; 256], nodes: usize) -> Option<usize>
    requires { nodes ≤ 256 }
    ensures { result ≡ position (λ x. x == 2) (take nodes uses) }
{
    uses[..nodes].iter().position(|times| *times == 2)
}

// The lowest node of a sheet that is used twice, as a child or a root (81): of a sheet whose table this is.
fn first_used_twice(sheet: &[u8], t: Table) -> Option<usize>
    ensures { (sh : Sheet) → read_sheet sheet.now ≡ ok sh → t ≡ table_of sh → result ≡ used_twice sh }
{
    if 200 < t.nodes {
        return None;
    }
    lowest(count_uses(sheet, t), t.nodes)
}

// The nodes of a sheet in the order in which they are first met. Those still to be met stand at the end of `todo`, the next one first:
// it is taken, and its children are put in its place.
fn meet(sheet: &[u8], t: Table) -> Nodes
    requires { Single sheet.now t }
    ensures { Ordered sheet.now result }
{
    let mut todo = [0u8; 256];
    let mut top = 255 - t.sections;
    write_roots(sheet, t, &mut todo, top);
    let mut nodes = [0u8; 256];
    let mut count = 0;
    // A `for` is no plainer: how many rounds there are is known behind the last one.
    while top < 256 {
        let n = todo[top];
        nodes[count] = n;
        count += 1;
        let c = sheet::children_at(sheet, t.starts[usize::from(n)]);
        top = top + 1 - c.count;
        report::bytes(&mut todo, top, &c.nodes[..c.count]);
    }
    Nodes { count, nodes }
}

// The place of each node of a list.
fn places(l: Nodes) -> [u8; 256]
    requires { l.count ≤ 256 }
    ensures { Placed l result }
{
    let mut places = [0u8; 256];
    for (i, n) in l.nodes[..l.count].iter().enumerate() {
        places[usize::from(*n)] = i as u8;
    }
    places
}

// These nodes in this order, each under the number of its place.
fn in_order(l: Nodes) -> Anew
    requires { l.count ≤ 256 }
    ensures { Numbers l result }
{
    let nodes = places(l);
    let sections = records::shifted(0);
    let count = l.count;
    let order = l.nodes;
    Anew {
        count,
        order,
        nodes,
        sections,
    }
}

// A sheet written anew at the front of the output: its length.
fn write(sheet: &[u8], t: Table, m: Anew, out: &mut [u8]) -> usize
    requires { Fine sheet.now t }
    ensures { Wrote (text_anew sheet.now t m) 0 out.old out.new result }
{
    let root = m.nodes[t.root];
    let mut end = report::bytes(out, 0, &[0x01u8, t.k as u8, root]);
    end = records::write_sections(sheet, t.sections, m, out, end);
    records::write_nodes(sheet, t, m, out, end)
}

/// A sheet written anew, its nodes numbered as they are first met: from the main root downwards, a node before its children, each child with all
/// below it before the next, and then from each section's root in turn. Nodes never met are dropped. Refused, and nothing is written:
/// 1 an output under 2,048 bytes; the sheet's own refusals (10 to 14); 81, `Twice`, a node is used twice as a child or a root.
pub fn number(sheet: &[u8], out: &mut [u8]) -> Numbered
    ensures value { told result ≡ reply_of (number_answer sheet.now (length out.old)) }
    ensures out_after { out.new ≡ output_of (number_answer sheet.now (length out.old)) out.old }
{
    if out.len() < OUTPUT {
        return Err(Fault::Refused(Refusal::OutputSmall));
    }
    let t = sheet::read_sheet(sheet)?;
    if let Some(n) = first_used_twice(sheet, t) {
        return Err(Fault::Twice(n));
    }
    let m = in_order(meet(sheet, t));
    Ok(write(sheet, t, m, out))
}
