//! Plans made by a venue's own system (document 02, request 10): a finished new plan that comes with the list is judged by the rules.
#![tactic(auto)]

ghost use Rattle.std.specs.Prelude.{◌≡◌, length};
ghost use Rattle.node.specs.Kinds.{variables};
ghost use Rattle.shapes.specs.Parts.{same_bytes};
ghost use Rattle.rules.specs.Laws.Answers.{DoorOpens};
ghost use Rattle.walk.specs.Call.{Free};
ghost use Rattle.rules.specs.Numbers.{scratch_size};
ghost use Rattle.venue.specs.Accepts.{judged_of, accepts_of};
ghost use Rattle.value.specs.Numbered.{numbered};
ghost use Rattle.calls.specs.Reply.{told};
ghost use Rattle.accepts.specs.Accepts.{Accepted};
ghost use Rattle.accepts.specs.Calls.{Built, listed_of};
ghost use Rattle.accepts.specs.Kept.{Within, span_of, Plans, KeptAs};
ghost use Rattle.accepts.specs.Marks.{Readied, marked_one, marked_all, Marks};

use calls::{Done, Reply};
use node::Node;
use refusal::Refusal;
use sheet::Table;
use value::Spans;

// Marks variable x, where it is one of a plan's.
#[tactic(auto, using(crate::specs::Marks::one_marked, crate::specs::Marks::none_marked))]
fn mark(marks: &mut [bool; 16], x: usize)
    ensures { marks.new ≡ marked_one marks.old x }
{
    if x < 16 {
        marks[x] = true;
    }
}

// Marks the numbers that stand as variables in a node's record.
fn mark_node(marks: &mut [bool; 16], node: Node)
    ensures { marks.new ≡ marked_all marks.old (variables node) }
{
    match node {
        Node::Var(x) => mark(marks, x),
        Node::Call { first, second, .. } => {
            mark(marks, first);
            mark(marks, second)
        }
        Node::Each { variable, .. } => mark(marks, variable),
        _ => (),
    }
}

// A mark for each variable that a record of the sheet names: in one pass over the records.
fn named(sheet: &[u8], table: Table) -> [bool; 16]
    requires { Readied sheet.now table }
    ensures { Marks sheet.now result }
{
    let mut marks = [false; 16];
    for &at in &table.starts[..table.nodes] {
        mark_node(&mut marks, node::node_at(sheet, usize::from(at)));
    }
    marks
}

// The bytes of variable x in a plan.
fn part(plan: &[u8], spans: Spans, x: usize) -> &[u8]
    requires { Within plan.now spans x }
    ensures { result.now ≡ span_of plan.now spans x }
{
    let start = usize::from(spans.starts[x]);
    let end = start + usize::from(spans.lens[x]);
    &plan[start..end]
}

// Whether variable x has the same bytes in both plans.
fn is_same(old: &[u8], before: Spans, new: &[u8], after: Spans, x: usize) -> bool
    requires { Within old.now before x × Within new.now after x }
    ensures { result ≡ same_bytes (span_of old.now before x) (span_of new.now after x) }
{
    shapes::same(part(old, before, x), part(new, after, x))
}

// Whether every variable that no record names has the same bytes in both plans.
fn is_kept(sheet: &[u8], table: Table, old: &[u8], before: Spans, new: &[u8], after: Spans) -> bool
    requires { Plans sheet.now table old.now before new.now after }
    ensures { KeptAs sheet.now old.now new.now result }
{
    let marks = named(sheet, table);
    for x in 0..table.k {
        if !marks[x] && !is_same(old, before, new, after, x) {
            return false;
        }
    }
    true
}

// Whether what a walk built is the list; or the walk's refusal.
fn listed(walked: Reply, view: &[u8], scratch: &[u8]) -> Result<bool, Refusal>
    requires { Built (told walked) scratch.now }
    ensures { numbered result ≡ listed_of (told walked) view.now scratch.now }
{
    let Done { len, .. } = walked?;
    let start = rules::STACK;
    let end = start + len;
    Ok(shapes::same(&scratch[start..end], view))
}

// The verdict behind the door: each reader in turn, the new plan read out, and then both comparisons.
fn judged(
    sheet: &[u8],
    old: &[u8],
    view: &[u8],
    new: &[u8],
    allowance: usize,
    scratch: &mut [u8],
) -> Result<bool, Refusal>
    requires { DoorOpens 0 0 (length scratch.old) allowance }
    ensures value { numbered result ≡ judged_of sheet.now old.now view.now new.now allowance }
    ensures free { Free scratch_size scratch.old scratch.new }
{
    let table = sheet::read_sheet(sheet)?;
    let before = value::read_plan(table.k, old)?;
    value::read_view(view)?;
    let Ok(after) = value::read_plan(table.k, new) else {
        return Err(Refusal::NewPlan);
    };
    let got = walk::get(sheet, new, allowance, scratch);
    let same_list = listed(got.walked, view, scratch)?;
    if !same_list {
        return Ok(false);
    }
    Ok(is_kept(sheet, table, old, before, new, after))
}

/// Whether a new plan that a house made stands for the old plan and the list: it reads out to that list under that allowance, and every variable that
/// no record of the sheet names has the same bytes in both plans. Scratch takes 65,536 bytes. Refusals in order: `ScratchSmall`, `AllowanceRange`, the
/// sheet's, the old plan's, the list's, `NewPlan` where the new plan is not k values, and those of reading it out.
pub fn accepts(
    sheet: &[u8],
    old: &[u8],
    view: &[u8],
    new: &[u8],
    allowance: u32,
    scratch: &mut [u8],
) -> Result<bool, Refusal>
    ensures { Accepted (accepts_of sheet.now old.now view.now new.now allowance
        (length scratch.old)) (numbered result) scratch.old scratch.new }
{
    let steps_allowed = allowance as usize;
    calls::side_door(scratch.len(), steps_allowed)?;
    let verdict = judged(sheet, old, view, new, steps_allowed, scratch);
    buffers::clear(scratch);
    verdict
}
