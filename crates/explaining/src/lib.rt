//! Why a get or a put is refused: the refusal that the call meets first, and the nodes from the root down to the one where it is met.
#![tactic(auto)]

ghost use Rattle.std.specs.Prelude.{◌≡◌, ◌≤◌, Some, length};
ghost use Rattle.refusal.specs.Refusal.{number_of};
ghost use Rattle.rules.specs.Numbers.{scratch_size, chain_limit};
ghost use Rattle.rules.specs.Explain.Calls.{why_get, why_put};
ghost use Rattle.walk.specs.Call.Explained.{met_at, why_of};
ghost use Rattle.explaining.specs.Explain.{unmet, told_as, why_reply, WhyAnswered};

use buffers::{clear, copy_out};
use calls::{Reply, side_door};
use refusal::Refusal;
use walk::Met;

/// Why a call is refused: the refusal; how many nodes its chain has, 0 for a refusal from before the walk; the chain's nodes, the root first, and
/// zeros behind them; and of `Clash` one more than the node that wrote first, 0 otherwise.
#[derive(Clone, Copy, Debug, PartialEq, Eq)]
pub struct Why {
    pub refusal: Refusal,
    pub depth: u8,
    pub chain: [u8; rules::CHAIN_MAX],
    pub first: u16,
}

// A refusal from before the walk.
fn unmet(refusal: Refusal) -> Why
    ensures { why_reply (Some result) ≡ unmet (number_of refusal) }
{
    let chain = [0u8; rules::CHAIN_MAX];
    Why {
        refusal,
        depth: 0,
        chain,
        first: 0,
    }
}

// A refusal behind the door, whose chain stands in scratch.
fn refused(refusal: Refusal, met: Met, scratch: &[u8]) -> Why
    requires { (met.depth ≤ chain_limit) × (scratch_size ≤ length scratch.now) }
    ensures { why_reply (Some result) ≡ told_as (met_at scratch.now (number_of refusal) met.depth met.first) }
{
    let depth = met.depth;
    if depth == 0 {
        return unmet(refusal);
    }
    let mut chain = [0u8; rules::CHAIN_MAX];
    copy_out(scratch, rules::CHAIN, usize::from(depth), &mut chain, 0);
    let first = met.first;
    Why {
        refusal,
        depth,
        chain,
        first,
    }
}

// A walk's answer, explained: nothing where it is done.
fn explained(walked: Reply, met: Met, scratch: &[u8]) -> Option<Why>
    requires { (met.depth ≤ chain_limit) × (scratch_size ≤ length scratch.now) }
    ensures { why_reply result ≡ told_as (why_of scratch.now walked met) }
{
    match walked {
        Ok(_) => None,
        Err(refusal) => Some(refused(refusal, met, scratch)),
    }
}

/// Why `get` is refused, with an output that is long enough; `None` where it succeeds. Scratch takes 65,536 bytes.
pub fn why_get(sheet: &[u8], plan: &[u8], allowance: u32, scratch: &mut [u8]) -> Option<Why>
    ensures { WhyAnswered (why_get sheet.now plan.now allowance (length scratch.old)) (why_reply result) scratch.old
        scratch.new }
{
    let steps_allowed = allowance as usize;
    if let Err(refusal) = side_door(scratch.len(), steps_allowed) {
        return Some(unmet(refusal));
    }
    let got = walk::get(sheet, plan, steps_allowed, scratch);
    let why = explained(got.walked, got.met, scratch);
    clear(scratch);
    why
}

/// Why `put` is refused, with an output that is long enough; `None` where it succeeds. Scratch takes 65,536 bytes.
pub fn why_put(
    sheet: &[u8],
    plan: &[u8],
    view: &[u8],
    allowance: u32,
    scratch: &mut [u8],
) -> Option<Why>
    ensures { WhyAnswered (why_put sheet.now plan.now view.now allowance (length scratch.old)) (why_reply result)
        scratch.old scratch.new }
{
    let steps_allowed = allowance as usize;
    if let Err(refusal) = side_door(scratch.len(), steps_allowed) {
        return Some(unmet(refusal));
    }
    let put = walk::put(sheet, plan, view, steps_allowed, scratch);
    let why = explained(put.walked, put.met, scratch);
    clear(scratch);
    why
}
