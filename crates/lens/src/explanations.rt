//! Why a get or a put is refused, for C.
ghost use Rattle.std.specs.Prelude.{length};
ghost use Rattle.rules.specs.Explain.Calls.{why_get, why_put};
ghost use Rattle.explaining.specs.Explain.{why_reply};
ghost use Rattle.lens.specs.Explanations.{WhyHandedOut, WhyHanded};

use explaining::{Why, why_get, why_put};
use packing::{hand, pack_why};

// An explanation: in one number, and its nodes at the front of the caller's bytes.
fn hand_why(why: Option<Why>, chain: &mut [u8]) -> u64
    ensures { WhyHandedOut (why_reply why) result chain.old chain.new }
{
    match why {
        None => pack_why(0, 0, 0),
        Some(why) => {
            hand(&why.chain, usize::from(why.depth), chain);
            pack_why(why.refusal.number(), why.depth, why.first)
        }
    }
}

/// `why_get` for C: the nodes of the chain at the front of `chain`; no other byte of it is written, and none where there is no chain.
#[unsafe(no_mangle)]
pub extern "C" fn lens_why_get(
    sheet: &[u8],
    plan: &[u8],
    allowance: u32,
    scratch: &mut [u8],
    chain: &mut [u8; rules::CHAIN_MAX],
) -> u64
    ensures { WhyHanded (why_get sheet.now plan.now allowance (length scratch.old)) result scratch.old
        scratch.new chain.old chain.new }
{
    let why = why_get(sheet, plan, allowance, scratch);
    hand_why(why, chain)
}

/// `why_put` for C, likewise.
#[unsafe(no_mangle)]
pub extern "C" fn lens_why_put(
    sheet: &[u8],
    plan: &[u8],
    view: &[u8],
    allowance: u32,
    scratch: &mut [u8],
    chain: &mut [u8; rules::CHAIN_MAX],
) -> u64
    ensures { WhyHanded (why_put sheet.now plan.now view.now allowance (length scratch.old)) result
        scratch.old scratch.new chain.old chain.new }
{
    let why = why_put(sheet, plan, view, allowance, scratch);
    hand_why(why, chain)
}
