//! Get and put over a lent arena, proved equal to the rules.
//!
//! The arena is 65,536 bytes: the plan from 0, the 256 bytes of each cell from 4,096, and from 32,256 a stack of the values
//! that are being built; the last 49 bytes are for the chain of a refusal. A walk at `top` leaves the stack below `top` and the plan alone.
#![tactic(auto)]

ghost use Rattle.std.specs.Prelude.{◌≡◌, MatchResult};
ghost use Rattle.refusal.specs.Refusal.{number_of};
ghost use Rattle.rules.specs.Answer.{get_bytes, put_bytes};
ghost use Rattle.rules.specs.Numbers.{get_output, put_output};
ghost use Rattle.rules.specs.Explain.Calls.{explain_get, explain_put};
ghost use Rattle.walk.specs.Call.Bits.{new_written};
ghost use Rattle.walk.specs.Call.{Opens, Bars, Planned, PlanWalked, Unread, WalkCall};
ghost use Rattle.walk.specs.Call.Gather.{SomePlaced, AllGathered};
ghost use Rattle.walk.specs.Call.NewStarts.{new_starts, refused_put};
ghost use Rattle.walk.specs.Call.Explained.{Explains, refused_get};
ghost use Rattle.walk.specs.Call.Put.{PutBars, PutUnread, Viewed};

mod at;
mod bytes;
mod cells;
mod chain;
mod getter;
mod got;
mod putter;
mod scope;

use crate::at::At;
use crate::bytes::{copy, copy_in};
use crate::cells::first_cells;
use crate::chain::{met_at, nowhere};
use crate::getter::get_node;
use crate::got::bring;
use crate::putter::put_node;
use crate::scope::of_spans;
use arena::{bits_of, door};
pub use chain::Met;
use refusal::Refusal;
use scopes::Scope;
use sheet::Table;
use starts::{NewPlan, Starts};

/// What a walk gives, and what a call answers, that is not refused: the length of the output and the steps taken. A walk leaves the output at the
/// top of its stack, and a call moves it to its caller's buffer.
#[derive(Clone, Copy, Debug, PartialEq, Eq)]
pub struct Done {
    pub len: usize,
    pub steps: usize,
}

/// What a get gives: the walk's answer, and where a refusal was met.
#[derive(Clone, Copy, Debug, PartialEq, Eq)]
pub struct GetWalked {
    pub walked: Result<Done, Refusal>,
    pub met: Met,
}

/// What a put gives: the walk's answer, where the values of the new plan start, which variables took a view, bit i for
/// variable i, and where a refusal was met. With a refusal there is no start, and no bit is set.
#[derive(Clone, Copy, Debug, PartialEq, Eq)]
pub struct PutWalked {
    pub walked: Result<Done, Refusal>,
    pub starts: Starts,
    pub written: u16,
    pub met: Met,
}

// What a walk begins with: the table of the sheet, and a scope of the plan's variables.
#[derive(Clone, Copy, Debug, PartialEq, Eq)]
struct Opened {
    table: Table,
    scope: Scope,
}

// What is done before a walk: the door's judgement, then the sheet is read, then the plan.
fn open(sheet: &[u8], plan: &[u8], scratch: usize, allowance: usize) -> Result<Opened, Refusal>
    ensures { MatchResult result (λ o. Opens sheet.now plan.now scratch allowance o.table o.scope) (λ e. Bars sheet.now plan.now scratch allowance
        (number_of e)) }
{
    door(scratch, allowance)?;
    let table = sheet::read_sheet(sheet)?;
    let spans = value::read_plan(table.k, plan)?;
    let scope = of_spans(table.k, spans);
    Ok(Opened { table, scope })
}

// What is done before the walk of a put: the view is read too.
fn open_put(
    sheet: &[u8],
    plan: &[u8],
    view: &[u8],
    scratch: usize,
    allowance: usize,
) -> Result<Opened, Refusal>
    ensures { MatchResult result (λ o. Opens sheet.now plan.now scratch allowance o.table o.scope × Viewed view.now) (λ e. PutBars sheet.now plan.now
        view.now scratch allowance (number_of e)) }
{
    let opened = open(sheet, plan, scratch, allowance)?;
    value::read_view(view)?;
    Ok(opened)
}

// A refusal of a get from before the walk.
#[tactic(auto, unfolding(crate::specs::Call::Explained::refused_get))]
fn unread(refusal: Refusal) -> GetWalked
    ensures { result ≡ refused_get refusal }
{
    let walked = Err(refusal);
    let met = nowhere();
    GetWalked { walked, met }
}

// The walk from the root, over an arena of 65,536 bytes.
fn get_plan(
    sheet: &[u8],
    plan: &[u8],
    table: Table,
    scope: Scope,
    allowance: usize,
    arena: &mut [u8],
) -> GetWalked
    requires { Planned sheet.now plan.now table scope allowance arena.old }
    ensures plan_walked { PlanWalked get_output (get_bytes sheet.now plan.now allowance) arena.old arena.new
        result.walked }
    ensures explains { Explains (explain_get sheet.now plan.now allowance) allowance arena.old arena.new result.walked
        result.met }
{
    copy_in(plan, arena);
    let at = At {
        levels: rules::LEVELS,
        left: allowance,
        top: rules::STACK,
        cells: 0,
    };
    let got = get_node(sheet, &table.starts, arena, scope, table.root, at);
    let got = bring(arena, got, rules::STACK);
    if let Some(refusal) = got.refusal() {
        let walked = Err(refusal);
        let met = met_at(got);
        return GetWalked { walked, met };
    }
    let walked = Ok(Done {
        len: got.len(),
        steps: got.steps(),
    });
    let met = nowhere();
    GetWalked { walked, met }
}

/// Get: the value of a sheet's root for a plan, at byte 32,256 of the arena, of which the first 65,536 bytes are
/// used; and where a refusal was met. Where the door stays shut, and where the sheet or the plan is refused, the arena is as it was; otherwise those
/// bytes are free, and may hold anything, but for a refusal's chain.
pub fn get(sheet: &[u8], plan: &[u8], allowance: usize, arena: &mut [u8]) -> GetWalked
    ensures walk_call { WalkCall (Unread sheet.now plan.now) get_output (get_bytes sheet.now plan.now allowance)
        allowance arena.old arena.new result.walked }
    ensures explains { Explains (explain_get sheet.now plan.now allowance) allowance arena.old arena.new result.walked
        result.met }
{
    match open(sheet, plan, arena.len(), allowance) {
        Ok(opened) => get_plan(
            sheet,
            plan,
            opened.table,
            opened.scope,
            allowance,
            &mut arena[..rules::SCRATCH],
        ),
        Err(refusal) => unread(refusal),
    }
}

// The new plan, from byte 32,256 on: each variable's value, from where it now stands.
fn gather(arena: &mut [u8], slots: &[u16; rules::VARIABLES], scope: Scope) -> NewPlan
    requires { SomePlaced arena.old slots.now scope }
    ensures { AllGathered slots.now scope arena.old arena.new result }
{
    let mut at = [0u16; 16];
    let mut len = 0;
    for i in 0..usize::from(scope.count) {
        let stood = scopes::length_of(scope.lens[i]);
        let start = usize::from(scope.starts[i]);
        let from = scopes::place_of(slots[i], i, start, stood);
        copy(arena, from.start, rules::STACK + len, from.len);
        len = starts::grow(&mut at, i, len, from.len);
    }
    let count = scope.count as u8;
    let starts = Starts { count, at };
    NewPlan { len, starts }
}

// A refusal of a put that was met there, with no start and no bit.
#[tactic(auto, unfolding(crate::specs::Call::NewStarts::refused_put))]
fn refused(refusal: Refusal, met: Met) -> PutWalked
    ensures { result ≡ refused_put refusal met }
{
    let walked = Err(refusal);
    let starts = starts::none();
    let written = 0;
    PutWalked {
        walked,
        starts,
        written,
        met,
    }
}

// The walk of put from the root, over an arena of 65,536 bytes.
fn put_plan(
    sheet: &[u8],
    plan: &[u8],
    view: &[u8],
    table: Table,
    scope: Scope,
    allowance: usize,
    arena: &mut [u8],
) -> PutWalked
    requires planned { Planned sheet.now plan.now table scope allowance arena.old }
    requires viewed { Viewed view.now }
    ensures plan_walked { PlanWalked put_output (put_bytes sheet.now plan.now view.now allowance) arena.old
        arena.new result.walked }
    ensures starts_value { result.starts ≡ new_starts sheet.now arena.new result.walked }
    ensures written_value { result.written ≡ new_written sheet.now plan.now view.now allowance result.walked }
    ensures explains { Explains (explain_put sheet.now plan.now view.now allowance) allowance arena.old
        arena.new result.walked result.met }
{
    copy_in(plan, arena);
    let mut slots = [0u16; rules::VARIABLES];
    let k = usize::from(scope.count);
    let cells = first_cells(k);
    let at = At {
        levels: rules::LEVELS,
        left: allowance,
        top: rules::STACK,
        cells: k,
    };
    let put = put_node(
        sheet,
        &table.starts,
        arena,
        &mut slots,
        scope,
        &cells,
        table.root,
        view,
        at,
    );
    if let Some(refusal) = put.refusal() {
        return refused(refusal, met_at(put));
    }
    let new = gather(arena, &slots, scope);
    let len = new.len;
    let steps = put.steps();
    let walked = Ok(Done { len, steps });
    let starts = new.starts;
    let written = bits_of(&slots, k);
    let met = nowhere();
    PutWalked {
        walked,
        starts,
        written,
        met,
    }
}

/// Put: the plan for which a sheet's root is the view, at byte 32,256 of the arena, of which the first 65,536 bytes are
/// used, where its values start, which variables took a view, and where a refusal was met. Where the door stays shut, and where the sheet, the plan
/// or the view is refused, the arena is as it was; otherwise those bytes are free, and may hold anything, but for a refusal's chain.
pub fn put(sheet: &[u8], plan: &[u8], view: &[u8], allowance: usize, arena: &mut [u8]) -> PutWalked
    ensures walk_call { WalkCall (PutUnread sheet.now plan.now view.now) put_output
        (put_bytes sheet.now plan.now view.now allowance) allowance arena.old arena.new result.walked }
    ensures starts_value { result.starts ≡ new_starts sheet.now arena.new result.walked }
    ensures written_value { result.written ≡ new_written sheet.now plan.now view.now allowance result.walked }
    ensures explains { Explains (explain_put sheet.now plan.now view.now allowance) allowance arena.old
        arena.new result.walked result.met }
{
    match open_put(sheet, plan, view, arena.len(), allowance) {
        Ok(opened) => put_plan(
            sheet,
            plan,
            view,
            opened.table,
            opened.scope,
            allowance,
            &mut arena[..rules::SCRATCH],
        ),
        Err(refusal) => refused(refusal, nowhere()),
    }
}
