//! What a walk leaves at fixed places: a view in its cell's slot, stored by the first node that puts one and compared with ever after, and what the
//! slots' notes tell of which cells took a view; and the chain of a refusal, the nodes from the root down to the one that it was met at, each with
//! its byte at the arena's end, written on the way out of it. And the door, which judges whether an arena and an allowance will do for a walk.
#![tactic(auto)]

ghost use Rattle.std.specs.Prelude.{◌≡◌, min};
ghost use Rattle.rules.specs.Bits.{bits_of};
ghost use Rattle.scopes.specs.Scopes.{When};
ghost use Rattle.arena.specs.Writing.{Takes, write_answer, written_bytes, written_notes};
ghost use Rattle.arena.specs.Chain.{in_chain, chained, left_as};
ghost use Rattle.arena.specs.Bits.{filled_from};
ghost use Rattle.arena.specs.Door.{Judges};

use outcome::{Answer, deeper, is_refused, later};
use refusal::Refusal;

/// What a walk refuses before it reads anything: too little scratch, then an allowance of 0 or one that is too large.
pub fn door(scratch: usize, allowance: usize) -> Result<(), Refusal>
    ensures { Judges 0 0 scratch allowance result }
{
    if scratch < rules::SCRATCH {
        return Err(Refusal::ScratchSmall);
    }
    if allowance == 0 {
        return Err(Refusal::AllowanceRange);
    }
    if rules::ALLOWANCE < allowance {
        return Err(Refusal::AllowanceRange);
    }
    Ok(())
}

/// A view for the cell c: the node writes it where nothing was written, and it is noted; or else it must equal what was. Nothing changes, and
/// the answer is 42, where there is no such cell or slot, no node has that number, or no value has that many bytes.
pub fn write(
    arena: &mut [u8],
    slots: &mut [u16; rules::VARIABLES],
    c: usize,
    node: usize,
    view: &[u8],
) -> Answer
    ensures when { When (Takes arena.old c node view.now) result
        (write_answer arena.old slots.old c view.now) 42 }
    ensures when_2 { When (Takes arena.old c node view.now) arena.new
        (written_bytes arena.old slots.old c view.now) arena.old }
    ensures when_3 { When (Takes arena.old c node view.now) slots.new
        (written_notes slots.old c node view.now) slots.old }
{
    if rules::VARIABLES <= c {
        return Answer::refused(Refusal::Scope);
    }
    let slot = scopes::slot_of(c);
    if arena.len() < slot + rules::SLOT {
        return Answer::refused(Refusal::Scope);
    }
    if 254 < node {
        return Answer::refused(Refusal::Scope);
    }
    let len = view.len();
    if len == 0 {
        return Answer::refused(Refusal::Scope);
    }
    if rules::SLOT < len {
        return Answer::refused(Refusal::Scope);
    }
    let note = slots[c];
    if note == 0 {
        scopes::store(arena, slot, view);
        slots[c] = scopes::note_of(node as u8, len);
        return Answer::done(0, 0, 0);
    }
    let end = slot + scopes::noted_len(note);
    decisions::put_again(note, &arena[slot..end], view)
}

// A node's byte in the chain, where it was entered with so many levels left; nothing changes where there is no such place.
#[tactic(auto, using(crate::specs::Chain::in_place, crate::specs::Chain::no_place, crate::specs::Chain::place_out))]
fn name(arena: &mut [u8], node: usize, levels: usize)
    ensures { arena.new ≡ in_chain arena.old node levels }
{
    if rules::CHAIN + rules::LEVELS < levels {
        return;
    }
    let place = rules::CHAIN + rules::LEVELS - levels;
    if arena.len() <= place {
        return;
    }
    arena[place] = (node % 256) as u8;
}

/// The answer of a node that was entered with so many levels left, or was refused entry: a step more; or, of a refusal, one node more.
#[tactic(auto, using(crate::specs::Chain::leaving))]
pub fn leave(arena: &mut [u8], answer: Answer, node: usize, levels: usize) -> Answer
    ensures value { result ≡ left_as answer }
    ensures arena_after { arena.new ≡ chained arena.old answer node levels }
{
    if answer.is_refused() {
        name(arena, node, levels);
        return answer.deeper();
    }
    answer.later(1)
}

/// What `leave` does, for any number, whether it is that of an answer or not: where its low byte is not 0, it is a refusal's.
#[tactic(auto, using(crate::specs::Chain::leaving))]
pub fn leave_number(arena: &mut [u8], answer: usize, node: usize, levels: usize) -> usize
    ensures value { result ≡ left_as answer }
    ensures arena_after { arena.new ≡ chained arena.old answer node levels }
{
    if is_refused(answer) {
        name(arena, node, levels);
        return deeper(answer);
    }
    later(answer, 1)
}

/// Which of the first k cells took a view: bit i for cell i. A plan has at most 16 variables, and no cell behind them has a bit.
pub fn bits_of(slots: &[u16; rules::VARIABLES], k: usize) -> u16
    ensures { result ≡ bits_of (filled_from slots.now 0 (min k 16)) }
{
    let mut bits = 0;
    for i in (0..k.min(16)).rev() {
        // a note of 0 is that of a slot to which nothing was written
        bits = u16::from(slots[i] != 0) + 2 * bits;
    }
    bits
}
